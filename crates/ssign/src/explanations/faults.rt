//! What is wrong with a message or a block.
use super::Explanation;

/// The faults of messages and of blocks.
pub static FAULTS: [Explanation; 21] = [
    Explanation {
        code: "M1",
        text: "The text doesn't begin with a PRI, <0> to <191> without a needless zero. What is stored isn't what was \
            sent, or isn't syslog: have the log written raw.",
    },
    Explanation {
        code: "M2",
        text: "The PRI isn't followed by 1 and a space. Many daemons send the older form of RFC 3164, which has no \
            version: set the sender to RFC 5424.",
    },
    Explanation {
        code: "M3",
        text: "The time stamp isn't one of RFC 5424. That has a capital T and Z, at most six decimals and no leap \
            second, or is - alone. Set the sender to write it so.",
    },
    Explanation {
        code: "M4",
        text: "HOSTNAME isn't 1 to 255 visible ASCII octets followed by a space. A name with a space in it, or with \
            letters that aren't ASCII, fails so. Set the sender to write it in ASCII, or - if it has none.",
    },
    Explanation {
        code: "M5",
        text: "APP-NAME isn't 1 to 48 visible ASCII octets followed by a space. The name of the program may be too \
            long, or hold a space. Set the sender to shorten it, or to write -.",
    },
    Explanation {
        code: "M6",
        text: "PROCID isn't 1 to 128 visible ASCII octets followed by a space. Set the sender to write the number of \
            its process there, or -.",
    },
    Explanation {
        code: "M7",
        text: "MSGID isn't 1 to 32 visible ASCII octets followed by a space. If a field of the header was left out, \
            each later field is read in place of the one before, and the mistake shows here. Set the sender to write - \
            for an absent field.",
    },
    Explanation {
        code: "M8",
        text: "An octet in the structured data, or right after it, can't stand there, or the text ends too early. If \
            it is the last octet of the text, it is usually a line feed that the sender counted into the frame: have \
            the sender leave it out. If every block fails so, a CR or LF was added when the log was stored.",
    },
    Explanation {
        code: "M9",
        text: "The name of an element or of a parameter isn't 1 to 32 octets long. The sender writes structured data \
            in another way than RFC 5424, or the text was changed: compare it with what the sender sends.",
    },
    Explanation {
        code: "M10",
        text: "The value of a parameter isn't UTF-8. The sender wrote it in another encoding, or an octet was changed: \
            set the sender to UTF-8.",
    },
    Explanation {
        code: "M11",
        text: "The message has two elements of this name, and each may stand once. The sender wrote it twice, or a \
            relay added one: have one of them leave it out.",
    },
    Explanation {
        code: "M12",
        text: "The text of the message begins with a byte order mark, which says that it is UTF-8, and it isn't. The \
            sender wrote another encoding after the mark, or cut the text within a character. Have it write UTF-8, or \
            leave the mark out.",
    },
    Explanation {
        code: "S1",
        text: "The message has both elements, ssign and ssign-cert, and a block has one. Its sender put two blocks \
            into one message, or somebody added an element. Each block has to be a message of its own.",
    },
    Explanation {
        code: "S2",
        text: "The parameters of the element aren't those of a block. They are, in this order and with no other: VER, \
            RSID, SG, SPRI, then GBC, FMN, CNT, HB of ssign or TPBL, INDEX, FLEN, FRAG of ssign-cert, and SIGN. The \
            sender writes blocks in another way than RFC 5848, or the block was changed: compare it with what the \
            sender sends.",
    },
    Explanation {
        code: "S3",
        text: "The version VER is neither 0111 (SHA-1) nor 0121 (SHA-256). The block has another version, hash or \
            signature scheme, which isn't reviewed, or it was changed. Set the originator to one of these two.",
    },
    Explanation {
        code: "S4",
        text: "A number of the block is empty, has a needless zero or an octet that isn't a digit, or is out of its \
            range. The sender writes blocks in another way than RFC 5848, or the block was changed: compare it with \
            what the sender sends.",
    },
    Explanation {
        code: "S5",
        text: "HB has more or fewer hashes than CNT says. The block was changed, or its originator counts wrongly: \
            compare it with what the originator sends.",
    },
    Explanation {
        code: "S6",
        text: "A hash in HB isn't base64 of 20 octets (SHA-1) or 32 octets (SHA-256), whichever VER says. The block \
            was changed or cut, or VER names the other algorithm: compare it with what the originator sends.",
    },
    Explanation {
        code: "S7",
        text: "The signature SIGN isn't base64, or holds no octet. The block was changed, or its originator writes \
            signatures in another way: compare it with what the originator sends.",
    },
    Explanation {
        code: "S8",
        text: "The fragment goes beyond the end of the payload, or its length isn't FLEN. The block was changed, or \
            its originator counts something else than octets: compare it with what the originator sends.",
    },
    Explanation {
        code: "S9",
        text: "The last number that the block announces is over 9999999999. The block was changed, or its originator \
            went on where it has to begin a new session.",
    },
];
