//! The messages of these tests, and what is made of them. The hashes and the base64 were computed by another program.

/// The certificate block, as a frame.
pub const CERTIFICATE_FRAME: &[u8] =
    b"142 <110>1 - h s - - [ssign-cert VER=\"0111\" RSID=\"1\" SG=\"0\" SPRI=\"0\" TPBL=\"27\" INDEX=\"1\" FLEN=\"27\" \
        FRAG=\"2009-05-03T14:00:39Z K S0VZ\" SIGN=\"AAAA\"]";

/// The same as a line.
pub const CERTIFICATE_LINE: &[u8] =
    b"<110>1 - h s - - [ssign-cert VER=\"0111\" RSID=\"1\" SG=\"0\" SPRI=\"0\" TPBL=\"27\" INDEX=\"1\" FLEN=\"27\" \
        FRAG=\"2009-05-03T14:00:39Z K S0VZ\" SIGN=\"AAAA\"]\n";

/// What is signed of it.
pub const CERTIFICATE_WANT: &[u8] =
    b"want PDExMD4xIC0gaCBzIC0gLSBbc3NpZ24tY2VydCBWRVI9IjAxMTEiIFJTSUQ9IjEiIFNHPSIwIiBTUFJJPSIwIiBUUEJMPSIyNyIgSU5ERVg9\
        IjEiIEZMRU49IjI3IiBGUkFHPSIyMDA5LTA1LTAzVDE0OjAwOjM5WiBLIFMwVloiXQ==\n";

/// Two messages in one group: the certificate block, the messages, and their block at the flush.
pub const BOTH_FRAMES: &[u8] =
    b"142 <110>1 - h s - - [ssign-cert VER=\"0111\" RSID=\"1\" SG=\"0\" SPRI=\"0\" TPBL=\"27\" INDEX=\"1\" FLEN=\"27\" \
        FRAG=\"2009-05-03T14:00:39Z K S0VZ\" SIGN=\"AAAA\"]19 <13>1 - - - - - - a19 <14>1 - - - - - - b159 <110>1 - h \
        s - - [ssign VER=\"0111\" RSID=\"1\" SG=\"0\" SPRI=\"0\" GBC=\"0\" FMN=\"1\" CNT=\"2\" \
        HB=\"3Pfc6GFE4IsSJJq/MbjynAYg1oM= wTX9aOKATkVu7zPIYLz/u/iH3uQ=\" SIGN=\"AAAA\"]";

/// The same as lines.
pub const BOTH_LINES: &[u8] =
    b"<110>1 - h s - - [ssign-cert VER=\"0111\" RSID=\"1\" SG=\"0\" SPRI=\"0\" TPBL=\"27\" INDEX=\"1\" FLEN=\"27\" \
        FRAG=\"2009-05-03T14:00:39Z K S0VZ\" SIGN=\"AAAA\"]\n<13>1 - - - - - - a\n<14>1 - - - - - - b\n<110>1 - h s - - \
        [ssign VER=\"0111\" RSID=\"1\" SG=\"0\" SPRI=\"0\" GBC=\"0\" FMN=\"1\" CNT=\"2\" \
        HB=\"3Pfc6GFE4IsSJJq/MbjynAYg1oM= wTX9aOKATkVu7zPIYLz/u/iH3uQ=\" SIGN=\"AAAA\"]\n";

/// The frames again, where each signature is one octet 0.
pub const ONE_OCTET_FRAMES: &[u8] =
    b"142 <110>1 - h s - - [ssign-cert VER=\"0111\" RSID=\"1\" SG=\"0\" SPRI=\"0\" TPBL=\"27\" INDEX=\"1\" FLEN=\"27\" \
        FRAG=\"2009-05-03T14:00:39Z K S0VZ\" SIGN=\"AA==\"]19 <13>1 - - - - - - a19 <14>1 - - - - - - b159 <110>1 - h \
        s - - [ssign VER=\"0111\" RSID=\"1\" SG=\"0\" SPRI=\"0\" GBC=\"0\" FMN=\"1\" CNT=\"2\" \
        HB=\"3Pfc6GFE4IsSJJq/MbjynAYg1oM= wTX9aOKATkVu7zPIYLz/u/iH3uQ=\" SIGN=\"AA==\"]";

/// Two messages in one group, as a plan.
pub const BOTH_WANTS: &[u8] =
    b"want PDExMD4xIC0gaCBzIC0gLSBbc3NpZ24tY2VydCBWRVI9IjAxMTEiIFJTSUQ9IjEiIFNHPSIwIiBTUFJJPSIwIiBUUEJMPSIyNyIgSU5ERVg9\
        IjEiIEZMRU49IjI3IiBGUkFHPSIyMDA5LTA1LTAzVDE0OjAwOjM5WiBLIFMwVloiXQ==\nwant \
        PDExMD4xIC0gaCBzIC0gLSBbc3NpZ24gVkVSPSIwMTExIiBSU0lEPSIxIiBTRz0iMCIgU1BSST0iMCIgR0JDPSIwIiBGTU49IjEiIENOVD0iMiI\
        gSEI9IjNQZmM2R0ZFNElzU0pKcS9NYmp5bkFZZzFvTT0gd1RYOWFPS0FUa1Z1N3pQSVlMei91L2lIM3VRPSJd\n";

/// A block for each message, and each block twice.
pub const TWICE_FRAMES: &[u8] =
    b"142 <110>1 - h s - - [ssign-cert VER=\"0111\" RSID=\"1\" SG=\"0\" SPRI=\"0\" TPBL=\"27\" INDEX=\"1\" FLEN=\"27\" \
        FRAG=\"2009-05-03T14:00:39Z K S0VZ\" SIGN=\"AAAA\"]142 <110>1 - h s - - [ssign-cert VER=\"0111\" RSID=\"1\" \
        SG=\"0\" SPRI=\"0\" TPBL=\"27\" INDEX=\"1\" FLEN=\"27\" FRAG=\"2009-05-03T14:00:39Z K S0VZ\" SIGN=\"AAAA\"]19 \
        <13>1 - - - - - - a130 <110>1 - h s - - [ssign VER=\"0111\" RSID=\"1\" SG=\"0\" SPRI=\"0\" GBC=\"0\" FMN=\"1\" \
        CNT=\"1\" HB=\"3Pfc6GFE4IsSJJq/MbjynAYg1oM=\" SIGN=\"AAAA\"]130 <110>1 - h s - - [ssign VER=\"0111\" \
        RSID=\"1\" SG=\"0\" SPRI=\"0\" GBC=\"0\" FMN=\"1\" CNT=\"1\" HB=\"3Pfc6GFE4IsSJJq/MbjynAYg1oM=\" \
        SIGN=\"AAAA\"]19 <14>1 - - - - - - b130 <110>1 - h s - - [ssign VER=\"0111\" RSID=\"1\" SG=\"0\" SPRI=\"0\" \
        GBC=\"1\" FMN=\"2\" CNT=\"1\" HB=\"wTX9aOKATkVu7zPIYLz/u/iH3uQ=\" SIGN=\"AAAA\"]130 <110>1 - h s - - [ssign \
        VER=\"0111\" RSID=\"1\" SG=\"0\" SPRI=\"0\" GBC=\"1\" FMN=\"2\" CNT=\"1\" HB=\"wTX9aOKATkVu7zPIYLz/u/iH3uQ=\" \
        SIGN=\"AAAA\"]";

/// The same, as a plan, which has each block once.
pub const TWICE_WANTS: &[u8] =
    b"want PDExMD4xIC0gaCBzIC0gLSBbc3NpZ24tY2VydCBWRVI9IjAxMTEiIFJTSUQ9IjEiIFNHPSIwIiBTUFJJPSIwIiBUUEJMPSIyNyIgSU5ERVg9\
        IjEiIEZMRU49IjI3IiBGUkFHPSIyMDA5LTA1LTAzVDE0OjAwOjM5WiBLIFMwVloiXQ==\nwant \
        PDExMD4xIC0gaCBzIC0gLSBbc3NpZ24gVkVSPSIwMTExIiBSU0lEPSIxIiBTRz0iMCIgU1BSST0iMCIgR0JDPSIwIiBGTU49IjEiIENOVD0iMSI\
        gSEI9IjNQZmM2R0ZFNElzU0pKcS9NYmp5bkFZZzFvTT0iXQ==\nwant PDExMD4xIC0gaCBzIC0gLSBbc3NpZ24gVkVSPSIwMTExIiBSU0lEPSI\
        xIiBTRz0iMCIgU1BSST0iMCIgR0JDPSIxIiBGTU49IjIiIENOVD0iMSIgSEI9IndUWDlhT0tBVGtWdTd6UElZTHovdS9pSDN1UT0iXQ==\n";

/// Two messages of an originator that goes on at GBC 7 and number 5: they, and their block.
pub const RESUMED_FRAMES: &[u8] =
    b"19 <13>1 - - - - - - a19 <14>1 - - - - - - b159 <110>1 - h s - - [ssign VER=\"0111\" RSID=\"1\" \
        SG=\"0\" SPRI=\"0\" GBC=\"7\" FMN=\"5\" CNT=\"2\" HB=\"3Pfc6GFE4IsSJJq/MbjynAYg1oM= \
        wTX9aOKATkVu7zPIYLz/u/iH3uQ=\" SIGN=\"AAAA\"]";

/// The same, as a plan.
pub const RESUMED_WANTS: &[u8] = b"want \
        PDExMD4xIC0gaCBzIC0gLSBbc3NpZ24gVkVSPSIwMTExIiBSU0lEPSIxIiBTRz0iMCIgU1BSST0iMCIgR0JDPSI3IiBGTU49IjUi\
        IENOVD0iMiIgSEI9IjNQZmM2R0ZFNElzU0pKcS9NYmp5bkFZZzFvTT0gd1RYOWFPS0FUa1Z1N3pQSVlMei91L2lIM3VRPSJd\n";
