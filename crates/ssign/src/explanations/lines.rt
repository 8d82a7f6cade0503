//! What the words of a verdict and the lines of a report mean.
use super::Explanation;

/// Words of a verdict, and lines of a report.
pub static LINES: [Explanation; 28] = [
    Explanation {
        code: "verified",
        text: "Of a block: its session is joined, and its own signature is valid under the session's payload. Only \
            verified blocks announce messages. Only --blocks and --no-sha1 write a line about such a block. The other \
            blocks are unverified.",
    },
    Explanation {
        code: "unverified",
        text: "Of a block: its session isn't joined, or its own signature isn't valid under the session's payload. The \
            report's word is refused. Nothing that the block announces is used, so its messages are unlisted. Look at \
            the state of the session first.",
    },
    Explanation {
        code: "missing",
        text: "Of a message: a verified block announces its number, and no stored message is listed for it. The \
            report's word is lost, in a gap line. A changed message is missing too, and what it became is unlisted. Up \
            to counters, messages and signature blocks can be missing that nothing here announces. The report's words \
            for these are tail and blocks.",
    },
    Explanation {
        code: "unannounced",
        text: "Of a number: no verified block announces it, though one announces a later number of its group. The \
            report's word is hole. The block for it is missing or unverified, and its message, if stored, is unlisted.",
    },
    Explanation {
        code: "session",
        text: "A session is one run of a sender: its blocks share HOSTNAME, APP-NAME, PROCID and a number, the RSID. \
            The line ends with its state: joined, disputed, incomplete, malformed, untrusted or unaccepted, and with \
            --counters also absent. Only in a joined session can blocks be verified. The session's ok, gap and hole \
            lines follow, and then its early, beyond, tail and blocks lines.",
    },
    Explanation {
        code: "ok",
        text: "The message at this place is exactly the one that was signed under this number. A signature block holds \
            its hash, and the answers call the signature of that block valid. There is nothing to do.",
    },
    Explanation {
        code: "gap",
        text: "A message was signed under this number, and no stored message is listed for it. The number is lost or \
            disputed. A changed message shows as a gap, and as unlisted where it stands: look at its neighbours.",
    },
    Explanation {
        code: "lost",
        text: "This message is missing: no stored message is left that has the hash of this number. The message was \
            taken out or changed, or stored in another form than it was sent in. Or two numbers announce the same \
            message, as two originators may, and it is stored only once: the first number has it. If every number is \
            lost, suspect the storing before an intruder: an LF or a byte order mark was dropped from each message, or \
            control characters were escaped.",
    },
    Explanation {
        code: "hole",
        text: "The line ends with the first and the last of some numbers. These numbers are unannounced: no verified \
            signature block announces them, but one announces a later number. The block for them is missing or \
            unverified. Look for refused lines, and for the block in the logs before and after this one. The messages \
            of these numbers, if stored, are unlisted. With --from, numbers below the first counter of the group are \
            left out.",
    },
    Explanation {
        code: "early",
        text: "Only ssign review --from writes this line. It ends with the first and the last of some numbers. \
            Verified blocks announce them, and they lie below the first counter of their group: that of the file of \
            --from. So blocks of an earlier night stand in this log, or the counters are those of a later night, or \
            numbers were given twice. Each of these numbers is also listed or a gap.",
    },
    Explanation {
        code: "beyond",
        text: "Only ssign review --from writes this line, and only with --counters. It ends with the first and the \
            last of some numbers. Verified blocks announce them, and they lie at the second counter of their group or \
            above it: that of the file of --counters. Or the group has no counter there. So blocks of a later night \
            stand in this log, or the counters are older, or somebody else signs with this key. Each of these numbers \
            is also listed or a gap.",
    },
    Explanation {
        code: "blocks",
        text: "Only ssign review writes this line, with --whole, --counters or --from. It ends with the first and the \
            last of some values of GBC, which counts the signature blocks of a session from 0. No verified signature \
            block has one of these values, but one has a greater value, or the counters file says that more were sent. \
            So these blocks are missing or unverified, and their messages may be missing with them. Look for refused \
            and spoilt lines, and for the blocks in the logs before and after this one, or in those of other \
            collectors. With --from, values below the first counter of the session are left out.",
    },
    Explanation {
        code: "tail",
        text: "Only ssign review --counters writes this line. It ends with the first and the last of some numbers. The \
            counters file says that messages with these numbers were signed. No verified signature block announces one \
            of them, or a later one. So the end of the group was cut off, its blocks are missing, or they are \
            unverified. Look for refused lines, for the state of the session, and for the blocks in the logs after \
            this one. The messages of these numbers, if stored, are unlisted. With --from, numbers below the first \
            counter of the group are left out.",
    },
    Explanation {
        code: "tally",
        text: "Only ssign review writes this line, one for each group: with --tally in place of its ok, gap and hole \
            lines, and with --brief after them. After the group, SG and SPRI, stand six numbers. The first counts the \
            listed numbers. The next two count the gaps: those that are lost, and those that are disputed. The fourth \
            is how many numbers lie in holes. The last two are the first and the last announced number. If with \
            --tally the second, the third or the fourth isn't 0, run ssign review --findings.",
    },
    Explanation {
        code: "disorder",
        text: "Only ssign review --in-order writes this line, after the other lines of a group. After the group, SG and \
            SPRI, stand three numbers. The first counts the listed messages that stand in the log in front of the one \
            that is listed before them. The other two are the number and the place of the first of these. So somebody \
            moved messages, or they came in another order than their sender signed them: a relay or a network may do \
            that. The messages are authentic. Find out which order is right, by the numbers.",
    },
    Explanation {
        code: "unlisted",
        text: "No number lists this stored message. There are four cases. It was never signed, or its block comes only \
            after the end of this log: no other line shows this. Its block is missing or unverified: a hole, a refused \
            line or a session that isn't joined may show this. Only a blocks line, of --whole, may show that the last \
            block of a group is missing. Somebody changed it or put it in: a gap and this line together usually mean \
            that a message was changed. It is a copy too many: an equal message at an earlier place is listed.",
    },
    Explanation {
        code: "refused",
        text: "This block is unverified: its session isn't joined, or its own signature isn't valid under the \
            session's payload. Look at the state of the session first. If that is joined, the block was changed, or \
            the answers file lacks its yes line. With --pinned it may also be a certificate block with another payload \
            than the known one. With --ignore-strangers this line is no finding: not-ignored lines are.",
    },
    Explanation {
        code: "spoilt",
        text: "This message has an element ssign or ssign-cert, but isn't a block. The line ends with the first cause, \
            S1 to S9. The message announces nothing, and can't be listed. It was changed, or its sender writes blocks \
            in another way than RFC 5848: compare it with what the sender sends.",
    },
    Explanation {
        code: "damaged",
        text: "Only ssign review and ssign inspect write this line, with --salvage. Some octets of the log make no \
            frame that is beyond doubt, so they were left out. The line has three numbers: how many messages stand \
            before these octets, the offset of the first, and how many they are. They were changed or put in, or \
            other octets were lost there. Messages may stand among them, and signature blocks: look for gap and hole \
            lines, and with --whole for blocks lines. Compare them with another copy of the log. If the whole log is \
            damaged, it may be no log of frames: see whether it is compressed, or needs --lines.",
    },
    Explanation {
        code: "unlisted-count",
        text: "Only ssign review --tally writes this line: how many stored messages no number lists. If it isn't 0, \
            run ssign review --findings. It has an unlisted line for each of them.",
    },
    Explanation {
        code: "refused-count",
        text: "Only ssign review --tally writes this line: how many blocks are unverified. If it isn't 0, run ssign \
            review --findings. It has a refused line for each of them.",
    },
    Explanation {
        code: "spoilt-count",
        text: "Only ssign review --tally writes this line: how many messages have a block element and are no block. If \
            it isn't 0, run ssign review --findings. It has a spoilt line for each of them.",
    },
    Explanation {
        code: "damaged-count",
        text: "Only ssign review --tally writes this line, with --salvage, and only if the log is damaged: how many \
            damaged stretches it has, and how many octets these have together. Run ssign review --findings \
            --salvage. It has a damaged line for each of them.",
    },
    Explanation {
        code: "torn",
        text: "The log breaks off in the frame or line that begins at this octet. What stands before it was read. The \
            log was cut off, or is still being written. Get the rest, and run again. If messages stand after it, a \
            length is wrong: with --salvage reading goes on after that.",
    },
    Explanation {
        code: "signature-block",
        text: "Only ssign review --blocks writes this line, in front of the report, for each signature block of the \
            log. After its place stands whether it is verified, yes or no. Then come what the block says about \
            itself: its session, VER, SG, SPRI and GBC, the number of its first message, and how many hashes it has. \
            What an unverified block says counts for nothing.",
    },
    Explanation {
        code: "certificate-block",
        text: "Only ssign review --blocks writes this line, in front of the report, for each certificate block of the \
            log. After its place stands whether it is verified, yes or no. Then come what the block says about \
            itself: its session, VER, SG and SPRI, how long the payload is, where in it the fragment begins, and how \
            long that is. What an unverified block says counts for nothing.",
    },
    Explanation {
        code: "sha1",
        text: "Only ssign review --no-sha1 writes this line, in front of the report. The verified signature block at \
            this place has hashes by SHA-1, and it is the first such block. Two texts with one SHA-1 can be made, so \
            its session proves less. Other sessions may have such blocks too: --blocks shows the VER of each. Have the \
            sender sign with VER 0121, which is SHA-256.",
    },
    Explanation {
        code: "not-ignored",
        text: "Only ssign review --ignore-strangers writes this line, in front of the report, for a refused block that \
            is a finding even so. unjoined: the session that it claims isn't joined, so look at its state. late: it \
            may be its signer's last signature block, changed, because some joined session with its HOSTNAME, APP-NAME \
            and PROCID isn't verified up to its GBC or its last number. Give the counters of the sender with \
            --counters: they show what is missing.",
    },
];
