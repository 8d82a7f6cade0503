//! What the refusals of the program mean.
use super::Explanation;

/// The numbers that a refusal prints.
pub static REFUSALS: [Explanation; 38] = [
    Explanation {
        code: "F1",
        text: "F1 OFFSET: the octet there can't stand in the length of a frame. A length begins with 1 to 9, goes on \
            with digits, and ends with a space. At offset 0 the log is usually one message a line: use --lines. \
            Further on, something stands between two frames, such as a line feed, or a length is wrong: look at the \
            octets there. With --salvage reading goes on after them.",
    },
    Explanation {
        code: "F2",
        text: "F2 OFFSET: a message is longer than --max-len allows. In frames this is the offset of the digit that \
            makes the length too great; in lines, of the first octet too many. Raise --max-len, up to 1048576. If the \
            log is frames and not lines, leave --lines out. If the length is wrong, use --salvage: reading goes on \
            after it.",
    },
    Explanation {
        code: "F3",
        text: "Reading the log failed. The disk may be broken, or standard input is a folder. A non-blocking standard \
            input that has no data yet also fails so (EAGAIN). See that the log can be read, and run again.",
    },
    Explanation {
        code: "F4",
        text: "There wasn't enough memory for a message of the log. Give the program more memory.",
    },
    Explanation {
        code: "F5",
        text: "F5 OFFSET: the log has more messages than --max-messages allows, and goes on at this octet. Raise \
            --max-messages, up to 10000000, or cut the log into parts. Each part needs the certificate blocks of its \
            session and the signature blocks that announce its messages. If the session began before the part, a hole \
            stands for the numbers before its own.",
    },
    Explanation {
        code: "F9",
        text: "F9 OFFSET: the line feed there ends an empty line, and a message has at least one octet. If nothing was \
            lost there, remove the empty line.",
    },
    Explanation {
        code: "A1",
        text: "A1 LINE: this line of the answers file has none of the forms trust PAYLOAD, yes PAYLOAD OCTETS \
            SIGNATURE and seal OCTETS SIGNATURE. One space stands between two fields, and each field but the first is \
            base64. An empty line is wrong too, and so is a CR at the end of a line. A line with trust? or yes? is a \
            question, which nobody has answered. Only the first such line is named: mend it.",
    },
    Explanation {
        code: "A2",
        text: "The answers file can't be opened, is a folder, or reading it failed. See that the path after --answers \
            or --pinned is right, and that the file can be read.",
    },
    Explanation {
        code: "A3",
        text: "The answers file has more than 4294967295 octets. Leave out repeated lines, and lines that answer no \
            question of ssign questions.",
    },
    Explanation {
        code: "A4",
        text: "There wasn't enough memory for the answers. Give the program more memory, or leave out lines that \
            answer no question of ssign questions.",
    },
    Explanation {
        code: "Q1",
        text: "The file of --ask can't be made or opened, is a folder, or writing the questions to it failed: the disk \
            is full, for example, or whoever reads the pipe has ended. No report was written. The file may hold the \
            beginning of the questions; they are whole only with their last line, end. See that the path is right and \
            that there is room, and run again.",
    },
    Explanation {
        code: "D1",
        text: "D1 LINE: this line has none of the forms want OCTETS, yes? PAYLOAD OCTETS SIGNATURE and trust? PAYLOAD, \
            or no line feed ends it. One space stands between two fields, and OCTETS is base64. An empty line is wrong \
            too. The lines before it were answered. Only this one is named: mend it.",
    },
    Explanation {
        code: "C1",
        text: "C1 LINE: this line of the counters file has none of the forms count HOST APP PROCID RSID GBC, count \
            HOST APP PROCID RSID SG SPRI NUMBER and end N, as ssign counters writes them. One space stands between two \
            fields, and no number has leading zeros. An empty line is wrong too, and so is a CR at the end of a line. \
            Only the first such line is named: mend it.",
    },
    Explanation {
        code: "C2",
        text: "The counters file can't be opened, is a folder, or reading it failed. See that the path after \
            --counters, --from or --resume is right, and that the file can be read.",
    },
    Explanation {
        code: "C3",
        text: "The counters file isn't whole, as where a stop cut it off. It ends with a line end N, and N is how many \
            lines count stand before it, after the line end before that one. Give a file that is whole: ssign counters \
            makes one from the log. Files that are whole can be put together by cat. A file of more than 4294967295 \
            octets is refused too.",
    },
    Explanation {
        code: "C4",
        text: "There wasn't enough memory for the counters. Give the program more memory. Of several counters that \
            count the same, keep only the greatest.",
    },
    Explanation {
        code: "C5",
        text: "The counters file of --resume has no line count HOST APP PROCID RSID GBC of the session that the options \
            name. See that --host, --app, --procid and --rsid are those with which the session began. If none of its \
            blocks was sent yet, leave --resume out: then the certificate blocks come first.",
    },
    Explanation {
        code: "C6",
        text: "C6 N: in the counters file of --resume, the line count with this number counts a group of the session \
            that --groups doesn't have. Its SG is another one, or no group has its SPRI. Only the first such line is \
            named. Give the --groups with which the session began, or begin a new session: another --rsid, without \
            --resume.",
    },
    Explanation {
        code: "N1",
        text: "N1 LINE: this line of the places file isn't a place: a number from 0 to 9999999, without a sign, spaces or \
            leading zeros. An empty line is wrong too, and so is a CR at the end of a line. Only the first such line is \
            named: mend it.",
    },
    Explanation {
        code: "N2",
        text: "The places file can't be opened, is a folder, or reading it failed. See that the path after --facts or \
            --places is right, and that the file can be read.",
    },
    Explanation {
        code: "N3",
        text: "The last line of the places file has no line feed, as where a stop cut the file off: write it again. A \
            file of more than 10000000 lines or 80000000 octets is refused too: leave out repeated places.",
    },
    Explanation {
        code: "N4",
        text: "There wasn't enough memory for the places. Give the program more memory, or leave out repeated places.",
    },
    Explanation {
        code: "V1",
        text: "There wasn't enough memory to review the log. Give the program more memory, or cut the log into parts. \
            Each part needs the certificate blocks of its session and the signature blocks that announce its messages. \
            If the session began before the part, a hole stands for the numbers before its own.",
    },
    Explanation {
        code: "E1",
        text: "E1 PLACE: --place, or the file of --places, asks for the message at this place, and the log ends before \
            it. Places count the messages of the log from 0. Of several such places the lowest is named. See that the \
            log is the one that the place is from; ssign inspect numbers its messages.",
    },
    Explanation {
        code: "E2",
        text: "E2 PLACE: the message at this place holds a line feed, so it can't be written as one line. Of several \
            such messages the one that would be written first is named. Leave --lines-out out: frames hold any \
            message.",
    },
    Explanation {
        code: "W1",
        text: "Writing the output failed: the disk is full, for example, or the pipe was closed. Only the beginning of \
            the output was written: don't use it. Make room, and run again. A file size limit (ulimit -f) ends the \
            program by its signal, SIGXFSZ, without W1, unless that signal is ignored. ./ssign ignores it, so there \
            you get W1.",
    },
    Explanation {
        code: "W2",
        text: "There wasn't enough memory for the run or its output. Give the program more memory.",
    },
    Explanation {
        code: "P1",
        text: "P1 OFFSET: the log to be signed breaks off in the frame or line that begins there. A log is signed \
            whole or not at all. Get the rest, or cut the log off at this octet. With --lines the last line needs its \
            line feed too.",
    },
    Explanation {
        code: "P2",
        text: "A text of the command line isn't in its form. --payload is a time stamp or -, a letter for the type of \
            key, and the key in base64, with one space between two. It takes the text itself, not the name of a file; \
            only the type N has no key. --stamp is a time stamp or -. --groups is one, pri, or numbers that rise to \
            191, joined by commas. --host, --app, --procid and --msgid are visible ASCII, at most 255, 48, 128 and 32 \
            octets, or -. Quote the text, so that the shell passes it as one word.",
    },
    Explanation {
        code: "O1",
        text: "A number for the originator is out of its range, or the payload has more than 99999999 octets. ssign \
            refuses such numbers before, and few systems let an option be so long: give a shorter payload. The library \
            reports it to other programs.",
    },
    Explanation {
        code: "O2",
        text: "O2 PLACE: the message at this place of the log isn't a message of RFC 5424, so it can't be signed. Run \
            ssign inspect to see which part of it fails. Correct its sender, leave the message out, or sign it in a wrap \
            with --wrap.",
    },
    Explanation {
        code: "O3",
        text: "O3 PLACE: the message at this place has an element ssign or ssign-cert. So it is a block, or looks like \
            one, and blocks aren't signed again. Sign the log without its blocks, or in wraps with --wrap.",
    },
    Explanation {
        code: "O6",
        text: "O6 or O6 PLACE: a block is due, and the answers file has no seal line for it. With a place, the block \
            is due after the message there; without one, at the beginning or the end of the log. Without --answers \
            there are no seal lines at all. Run ssign plan over the same log with the same options, and have each of \
            its lines signed. Then give all seal lines to ssign sign with --answers.",
    },
    Explanation {
        code: "O7",
        text: "O7 or O7 PLACE: the signature in the seal line for a block has more than 1024 octets. PLACE means what \
            it means for O6. See what your signer writes: the last field of the line has to be the signature alone.",
    },
    Explanation {
        code: "O8",
        text: "O8 PLACE: the message at this place would get a number over 9999999999, and its group has no more \
            numbers. This comes only with --resume. Begin a new session: another --rsid, without --resume.",
    },
    Explanation {
        code: "O9",
        text: "O9 or O9 PLACE: a signature block would get a GBC, its count, over 9999999999, and the session has no \
            more. PLACE means what it means for O6. This comes only with --resume. Begin a new session: another \
            --rsid, without --resume.",
    },
    Explanation {
        code: "O10",
        text: "O10 or O10 PLACE: there wasn't enough memory to sign the log. Give the program more memory, or sign the \
            log in parts, each as a session of its own.",
    },
    Explanation {
        code: "O11",
        text: "O11 PLACE: the message at this place needs a wrap, which would be longer than --max-len allows. A wrap has \
            at most 485 octets more than its message. Raise --max-len, up to 1048576; whoever reviews the signed log \
            needs the same. Of several such messages the first is named.",
    },
];
