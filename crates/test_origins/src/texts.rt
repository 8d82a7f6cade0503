//! The messages of these tests, and the block messages that are due for them. The hashes were computed by another
//! program.

pub const A: &[u8] = b"<13>1 - - - - - - a";

pub const B: &[u8] = b"<14>1 - - - - - - b";

pub const C: &[u8] = b"<13>1 - - - - - - c";

pub const D: &[u8] = b"<14>1 - - - - - - d";

pub const E: &[u8] = b"<13>1 - - - - - - e";

/// The first 20 octets of the payload, in the group of the block messages' own PRI.
pub const FRONT: &[u8] =
    b"<110>1 - h s - - [ssign-cert VER=\"0111\" RSID=\"1\" SG=\"1\" SPRI=\"110\" TPBL=\"27\" INDEX=\"1\" FLEN=\"20\" \
        FRAG=\"2009-05-03T14:00:39Z\" SIGN=\"AAAA\"]";

/// The other 7.
pub const BACK: &[u8] =
    b"<110>1 - h s - - [ssign-cert VER=\"0111\" RSID=\"1\" SG=\"1\" SPRI=\"110\" TPBL=\"27\" INDEX=\"21\" FLEN=\"7\" \
        FRAG=\" K S0VZ\" SIGN=\"AAAA\"]";

/// a and c.
pub const FIRST_OF_13: &[u8] =
    b"<110>1 - h s - - [ssign VER=\"0111\" RSID=\"1\" SG=\"1\" SPRI=\"13\" GBC=\"0\" FMN=\"1\" CNT=\"2\" \
        HB=\"3Pfc6GFE4IsSJJq/MbjynAYg1oM= ZwISE/EIgQwTWjGNOS9KLuLPMKU=\" SIGN=\"AAAA\"]";

/// b and d.
pub const FIRST_OF_14: &[u8] =
    b"<110>1 - h s - - [ssign VER=\"0111\" RSID=\"1\" SG=\"1\" SPRI=\"14\" GBC=\"1\" FMN=\"1\" CNT=\"2\" \
        HB=\"wTX9aOKATkVu7zPIYLz/u/iH3uQ= /y8JrP2/KAC1/WVz4VVO/11p2uE=\" SIGN=\"AAAA\"]";

/// e alone.
pub const THIRD_OF_13: &[u8] =
    b"<110>1 - h s - - [ssign VER=\"0111\" RSID=\"1\" SG=\"1\" SPRI=\"13\" GBC=\"2\" FMN=\"3\" CNT=\"1\" \
        HB=\"3jxJYjNrUkyAhn8+9Kb8FkTYeS8=\" SIGN=\"AAAA\"]";

/// a alone, which a flush closed.
pub const A_FLUSHED: &[u8] =
    b"<110>1 - h s - - [ssign VER=\"0111\" RSID=\"1\" SG=\"1\" SPRI=\"13\" GBC=\"0\" FMN=\"1\" CNT=\"1\" \
        HB=\"3Pfc6GFE4IsSJJq/MbjynAYg1oM=\" SIGN=\"AAAA\"]";

/// c and e after a flush.
pub const C_AND_E: &[u8] =
    b"<110>1 - h s - - [ssign VER=\"0111\" RSID=\"1\" SG=\"1\" SPRI=\"13\" GBC=\"1\" FMN=\"2\" CNT=\"2\" \
        HB=\"ZwISE/EIgQwTWjGNOS9KLuLPMKU= 3jxJYjNrUkyAhn8+9Kb8FkTYeS8=\" SIGN=\"AAAA\"]";

/// b alone, second of the blocks.
pub const B_ALONE: &[u8] =
    b"<110>1 - h s - - [ssign VER=\"0111\" RSID=\"1\" SG=\"1\" SPRI=\"14\" GBC=\"1\" FMN=\"1\" CNT=\"1\" \
        HB=\"wTX9aOKATkVu7zPIYLz/u/iH3uQ=\" SIGN=\"AAAA\"]";

/// a at the last number, under the last GBC.
pub const LAST_OF_ALL: &[u8] =
    b"<110>1 - h s - - [ssign VER=\"0111\" RSID=\"1\" SG=\"1\" SPRI=\"13\" GBC=\"9999999999\" FMN=\"9999999999\" \
        CNT=\"1\" HB=\"3Pfc6GFE4IsSJJq/MbjynAYg1oM=\" SIGN=\"AAAA\"]";

/// a in the range up to 13.
pub const RANGE_TO_13: &[u8] =
    b"<110>1 - h s - - [ssign VER=\"0111\" RSID=\"1\" SG=\"2\" SPRI=\"13\" GBC=\"0\" FMN=\"1\" CNT=\"1\" \
        HB=\"3Pfc6GFE4IsSJJq/MbjynAYg1oM=\" SIGN=\"AAAA\"]";

/// b in the range after it.
pub const RANGE_TO_191: &[u8] =
    b"<110>1 - h s - - [ssign VER=\"0111\" RSID=\"1\" SG=\"2\" SPRI=\"191\" GBC=\"1\" FMN=\"1\" CNT=\"1\" \
        HB=\"wTX9aOKATkVu7zPIYLz/u/iH3uQ=\" SIGN=\"AAAA\"]";

/// a and b in one group, by SHA-256.
pub const BY_SHA256: &[u8] =
    b"<110>1 - h s - - [ssign VER=\"0121\" RSID=\"1\" SG=\"0\" SPRI=\"7\" GBC=\"0\" FMN=\"1\" CNT=\"2\" \
        HB=\"QaTpO86AILCzv19aNyBNh6HhWABAxWwNY6F6LtPofyA= BqxkDeASmfGNKO2/wPGsiWdLj0399i1IiXORt2Qw4RY=\" \
        SIGN=\"AAAA\"]";

/// The payload in one piece.
pub const WHOLE_BY_SHA256: &[u8] =
    b"<110>1 - h s - - [ssign-cert VER=\"0121\" RSID=\"1\" SG=\"0\" SPRI=\"7\" TPBL=\"27\" INDEX=\"1\" FLEN=\"27\" \
        FRAG=\"2009-05-03T14:00:39Z K S0VZ\" SIGN=\"AAAA\"]";

/// The payload in one piece, in the one group 0.
pub const WHOLE: &[u8] =
    b"<110>1 - h s - - [ssign-cert VER=\"0111\" RSID=\"1\" SG=\"0\" SPRI=\"0\" TPBL=\"27\" INDEX=\"1\" FLEN=\"27\" \
        FRAG=\"2009-05-03T14:00:39Z K S0VZ\" SIGN=\"AAAA\"]";

/// The same under a stamp and a MSGID.
pub const WHOLE_STAMPED: &[u8] =
    b"<110>1 2009-05-03T14:00:39Z h s - m [ssign-cert VER=\"0111\" RSID=\"1\" SG=\"0\" SPRI=\"0\" TPBL=\"27\" \
        INDEX=\"1\" FLEN=\"27\" FRAG=\"2009-05-03T14:00:39Z K S0VZ\" SIGN=\"AAAA\"]";

/// a in the one group 0, under a MSGID and no stamp.
pub const A_UNSTAMPED: &[u8] =
    b"<110>1 - h s - m [ssign VER=\"0111\" RSID=\"1\" SG=\"0\" SPRI=\"0\" GBC=\"0\" FMN=\"1\" CNT=\"1\" \
        HB=\"3Pfc6GFE4IsSJJq/MbjynAYg1oM=\" SIGN=\"AAAA\"]";

/// b in the one group 0, under a stamp and a MSGID.
pub const B_STAMPED: &[u8] =
    b"<110>1 2009-05-03T14:00:39Z h s - m [ssign VER=\"0111\" RSID=\"1\" SG=\"0\" SPRI=\"0\" GBC=\"1\" FMN=\"2\" \
        CNT=\"1\" HB=\"wTX9aOKATkVu7zPIYLz/u/iH3uQ=\" SIGN=\"AAAA\"]";

/// c in the one group 0, under another stamp.
pub const C_STAMPED: &[u8] =
    b"<110>1 2009-05-03T14:00:39.5+01:00 h s - m [ssign VER=\"0111\" RSID=\"1\" SG=\"0\" SPRI=\"0\" GBC=\"2\" \
        FMN=\"3\" CNT=\"1\" HB=\"ZwISE/EIgQwTWjGNOS9KLuLPMKU=\" SIGN=\"AAAA\"]";
