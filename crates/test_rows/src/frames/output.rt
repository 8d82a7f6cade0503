//! Octets and frames written, over writers that take little and writers that refuse.
use ss_frame::{Watched, WriteFault, write_frame, write_octets};
use std::io::ErrorKind;
use test_devices::{Paper, Refusal};

/// Whether `message` is answered so on this paper, which then holds `written`.
fn is_written(paper: Paper, message: &[u8], want: Result<(), WriteFault>, written: &[u8]) -> bool {
    let mut writer = Watched::new(paper);
    let answer = write_frame(&mut writer, message);
    let failed = matches!(want, Err(WriteFault::Write));
    answer == want && writer.failed() == failed && writer.into_inner().text() == written
}

/// A message and its frame.
const WRITTEN: [(&[u8], &[u8]); 3] = [
    (b"abc", b"3 abc"),
    (b"\x00", b"1 \x00"),
    (b"0123456789", b"10 0123456789"),
];

/// No octet, no frame.
fn is_no_frame() -> bool {
    let mut writer = Watched::new(Paper::new(16));
    let answer = write_frame(&mut writer, b"");
    answer == Err(WriteFault::Empty) && !writer.failed() && writer.into_inner().writes == 0
}

/// Octets alone.
fn are_octets_written() -> bool {
    let mut writer = Watched::new(Paper::new(2));
    let is_written = write_octets(&mut writer, b"")
        && write_octets(&mut writer, b"abc")
        && write_octets(&mut writer, b"d");
    let paper = writer.into_inner();
    is_written && paper.writes == 3 && paper.text() == b"abcd".as_slice()
}

#[test]
fn writes_a_message_behind_its_length(rt: HostRuntime) {
    for (message, frame) in &WRITTEN {
        for most in [1, 2, 16] {
            let is_written = is_written(Paper::new(most), message, Ok(()), frame);
            assert!(rt; is_written, "{message:?}, {most} octets at most");
        }
    }
    assert!(rt; is_no_frame());
    assert!(rt; are_octets_written());
}

const REFUSALS: [Refusal; 3] = [
    Refusal::Error(ErrorKind::BrokenPipe),
    Refusal::Error(ErrorKind::Interrupted),
    Refusal::Nothing,
];

/// The calls on a writer that fails at its second write: two for a frame, one for a frame without an octet, and two for
/// octets.
fn write_on(writer: &mut Watched<Paper>) -> ([Result<(), WriteFault>; 3], [bool; 2]) {
    let frames = [
        write_frame(writer, b"abc"),
        write_frame(writer, b"abc"),
        write_frame(writer, b""),
    ];
    (
        frames,
        [write_octets(writer, b"abc"), write_octets(writer, b"")],
    )
}

/// Whether a writer that has failed is left alone, and a message without an octet is still reported first.
fn is_left_alone(refusal: Refusal) -> bool {
    let mut writer = Watched::new(Paper::refusing(1, 2, refusal));
    let (frames, octets) = write_on(&mut writer);
    let write = Err(WriteFault::Write);
    let failed = writer.failed();
    let paper = writer.into_inner();
    frames == [write, write, Err(WriteFault::Empty)]
        && octets == [false, false]
        && failed
        && paper.writes == 2
        && paper.text() == b"3".as_slice()
}

/// Whether the write after so many octets of a frame is refused in this way. After five the frame is whole.
fn is_refused(refusal: Refusal, octets: usize) -> bool {
    let paper = Paper::refusing(1, (octets as u64).saturating_add(1), refusal);
    match b"3 abc".get(..octets) {
        Some(written) if octets < 5 => is_written(paper, b"abc", Err(WriteFault::Write), written),
        Some(written) => is_written(paper, b"abc", Ok(()), written),
        None => false,
    }
}

/// Whether a write of one octet is refused, and a message without an octet is reported after it.
fn is_first_refused() -> bool {
    let mut writer = Watched::new(Paper::refusing(16, 1, Refusal::Nothing));
    !write_octets(&mut writer, b"a") && write_frame(&mut writer, b"") == Err(WriteFault::Empty)
}

#[test]
fn stops_at_each_write_that_is_refused(rt: HostRuntime) {
    for refusal in REFUSALS {
        for octets in 0..6 {
            assert!(rt; is_refused(refusal, octets), "{refusal:?} after {octets}");
        }
        assert!(rt; is_left_alone(refusal), "{refusal:?}");
    }
    assert!(rt; is_first_refused());
}
