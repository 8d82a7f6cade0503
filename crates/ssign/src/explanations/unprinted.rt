//! What codes mean that the program never prints.
use super::Explanation;

/// Codes that the libraries give to other programs. The program has no cause to print one, and lists none of them.
pub static UNPRINTED: [Explanation; 7] = [
    Explanation {
        code: "F6",
        text: "A reader of a log was asked for another message after it had answered F1, F2, F3, F5 or F9. Nothing was \
            read. ssign never prints this; the library reports it to other programs.",
    },
    Explanation {
        code: "F7",
        text: "Writing a frame failed, and what was written may be a part of it. ssign never prints this, but W1; the \
            library reports it to other programs.",
    },
    Explanation {
        code: "F8",
        text: "A message without an octet was to be written as a frame, and a message has at least one. Nothing was \
            written. ssign never prints this; the library reports it to other programs.",
    },
    Explanation {
        code: "O4",
        text: "An originator was given a message, or flushed, before it had begun. ssign never prints this; the \
            library reports it to other programs.",
    },
    Explanation {
        code: "O5",
        text: "An originator was begun twice, or one was begun that goes on after another. ssign never prints this; \
            the library reports it to other programs.",
    },
    Explanation {
        code: "V2",
        text: "A reviewer was given more messages than it was made for. ssign never prints this, because it \
            refuses such a log with F5 before; the library reports it to other programs.",
    },
    Explanation {
        code: "M13",
        text: "There was no memory to read a message. ssign never prints this, but the refusal O10 where it \
            signs, and else W2 or V1; the library reports it to other programs.",
    },
];
