//! Streams of frames and of lines, whole and octet by octet.
use crate::frames::asking::Want::{Fault, Message};
use crate::frames::asking::{Want, are_answers, limits_of, wants_of};
use ss_frame::{FrameFault, FrameReader, Limits, Watched};
use std::alloc::{AllocError, Global};
use std::test::Fail;
use test_devices::{Cells, Pieces};

/// Streams, with `;` between two: a name, the limits, the octets, and each answer after the octets that are then taken.
/// The last is an end.
const STREAMS: &[u8] = b"no frame|frames|65536|10000000||0|.;\
     torn in a length|frames|65536|10000000|12|2|t0;\
     torn in a message|frames|65536|10000000|3 ab|4|t0;\
     torn in the second message|frames|65536|10000000|3 abc3 ab|5|=abc|9|t5;\
     torn after the largest length|frames|65536|10000000|65536 |6|t0;\
     length 0|frames|65536|10000000|0 |1|n0;\
     leading 0|frames|65536|10000000|03 abc|1|n0;\
     no digit|frames|65536|10000000|x|1|n0;\
     no digit after a digit|frames|65536|10000000|3x|2|n1;\
     no digit after a frame|frames|65536|10000000|3 abcx|5|=abc|6|n5;\
     length of twenty digits|frames|65536|10000000|99999999999999999999|5|l4;\
     length past the limit|frames|65536|10000000|65537 |5|l4;\
     the last frame|frames|3|1|1 a|3|=a|3|.;\
     a frame after the last one|frames|3|1|1 a1 b|3|=a|4|m3;\
     no line|lines|3|10||0|.;\
     a line|lines|3|10|abc\n|4|=abc|4|.;\
     CR and an octet past ASCII|lines|3|10|ab\r\n\xff\n|4|=ab\r|6|=\xff|6|.;\
     no LF|lines|3|10|abc|3|t0;\
     no LF after the second line|lines|3|10|abc\nab|4|=abc|6|t4;\
     an empty line|lines|3|10|\n|1|e0;\
     an empty line after a line|lines|3|10|a\n\nb\n|2|=a|3|e2;\
     a line past the limit|lines|3|10|abcd\n|4|l3;\
     a line past the limit without LF|lines|3|10|abcd|4|l3;\
     CR past the limit|lines|3|10|abc\r\n|4|l3;\
     the second line past the limit|lines|3|10|abc\nabcd\n|4|=abc|8|l7;\
     the last line|lines|3|1|a\n|2|=a|2|.;\
     LF after the last line|lines|3|1|a\n\n|2|=a|3|m2;\
     an octet after the last line|lines|3|1|a\nb|2|=a|3|m2";

/// In pieces as large as they are asked for, and octet by octet.
const MOST: [usize; 2] = [usize::MAX, 1];

/// Whether a stream is read so, in pieces of so many octets at most.
fn is_stream(alloc: Global, row: &[u8], most: usize) -> Result<bool, AllocError> {
    let mut cells = Cells::new(row);
    cells.octets();
    let Some(limits) = limits_of(&mut cells) else {
        return Ok(false);
    };
    let pieces = Pieces::new(cells.octets(), most);
    match wants_of(alloc, cells)? {
        Some(wants) => Ok(are_answers(alloc, limits, pieces, wants.as_slice())),
        None => Ok(false),
    }
}

/// Whether five frames are read of a stream without an end, and the sixth is one too many.
fn is_endless(alloc: Global, most: usize) -> Result<bool, AllocError> {
    let answers = b"3|=a|6|=a|9|=a|12|=a|15|=a|16|m15";
    let (Some(limits), Some(wants)) = (Limits::new(3, 5), wants_of(alloc, Cells::new(answers))?)
    else {
        return Ok(false);
    };
    let pieces = Pieces::endless(b"1 a", most);
    Ok(are_answers(alloc, limits, pieces, wants.as_slice()))
}

#[test]
fn streams(rt: HostRuntime) -> Result<(), Fail> {
    for most in MOST {
        for row in STREAMS.split(|octet| *octet == b';') {
            assert!(rt; is_stream(rt.alloc(), row, most)?, "{row:?}");
        }
        assert!(rt; is_endless(rt.alloc(), most)?);
    }
    Ok(())
}

/// Whether the length is read by six reads, and the message by three.
fn are_short(alloc: Global, pieces: Pieces<'_>) -> bool {
    let mut reader = Watched::new(pieces);
    let mut frames = FrameReader::new(alloc, Limits::standard());
    let is_read = frames.next_frame(&mut reader).is_ok();
    let pieces = reader.into_inner();
    is_read && (pieces.longest, pieces.reads) == (4_096, 9)
}

/// Whether a frame and an octet are read so, in pieces of so many octets at most.
fn is_long(alloc: Global, stream: &[u8; 10_007], most: usize) -> bool {
    let wants = [
        (Message(&stream[6..10_006]), 10_006),
        (Fault(FrameFault::BadLength { pos: 10_006 }), 10_007),
    ];
    let pieces = Pieces::new(stream, most);
    are_answers(alloc, Limits::standard(), pieces, &wants)
}

#[test]
fn reads_a_long_message_in_short_reads(rt: HostRuntime) {
    let mut stream = [b'x'; 10_007];
    stream[..6].copy_from_slice(b"10000 ");
    for most in MOST {
        assert!(rt; is_long(rt.alloc(), &stream, most));
    }
    assert!(rt; are_short(rt.alloc(), Pieces::new(&stream, usize::MAX)));
}

/// Whether this is left of a stream when the message `abc` was read.
fn is_left(alloc: Global, limits: Limits, stream: &[u8], left: &[u8]) -> bool {
    let mut reader = Watched::new(stream);
    let mut frames = FrameReader::new(alloc, limits);
    let answer = frames.next_frame(&mut reader);
    let is_given = Want::Message(b"abc").is_given(&answer);
    is_given && !reader.failed() && reader.into_inner() == left
}

#[test]
fn leaves_the_octets_behind_a_message_in_the_reader(rt: HostRuntime) {
    let frames = Limits::standard();
    assert!(rt; is_left(rt.alloc(), frames, b"3 abc3 ab", b"3 ab"));
    assert!(rt; is_left(rt.alloc(), frames.lines(), b"abc\nab", b"ab"));
}
