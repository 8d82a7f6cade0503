//! The example of the README of `ss_journal`, line by line, and on to the block of its message.
use ss_block::Head;
use ss_journal::{Command, Journal, Lossy};
use ss_message::Field;
use ss_octets::Bytes;
use std::test::Fail;

/// SHA-256 of the octets `21 <13>1 - - - - - - one`, as `sha256sum` computes it.
const ONE_MESSAGE: [u8; 32] = [
    0x9f, 0x5c, 0x84, 0x66, 0x50, 0xdf, 0x50, 0x73, 0xb7, 0xbe, 0xf7, 0x47, 0xb2, 0xa6, 0xc5, 0x19,
    0xc1, 0xcf, 0xbd, 0xcf, 0x70, 0x9e, 0x68, 0x6e, 0x21, 0xfc, 0x24, 0x9a, 0x14, 0x53, 0x91, 0xb9,
];

#[test]
fn readme(rt: HostRuntime) -> Result<(), Fail> {
    let alloc = rt.alloc();
    let calls = Vec::new(alloc);
    let disk = Lossy { alloc, calls };
    let seconds = 1_796_000_000;
    let message = b"<13>1 - - - - - - one".as_slice();
    let head = Head::new(110, Field::Nil, Field::Nil, Field::Nil, Field::Nil);
    assert!(rt; head.is_some());
    let Some(head) = head else {
        return Ok(());
    };
    let mut journal = Journal::new(alloc, disk, head);
    let before = journal.last(alloc)?;
    let next = journal.wake(alloc, seconds, before)?;
    let turned = journal.turn(alloc, next)?;
    journal.take(alloc, message)?;
    journal.confirm()?;
    assert_eq!(rt; before, 0);
    assert_eq!(rt; next, seconds);
    assert!(rt; journal.sum()? == ONE_MESSAGE);
    assert!(rt; turned);
    assert!(rt; !journal.serve(alloc, Command::Seal(2, None))?);
    assert!(rt; journal.serve(alloc, Command::Seal(1, None))?);
    assert!(rt; !journal.serve(alloc, Command::Seal(1, None))?);
    let signature = Vec::from_slice(alloc, b"signature")?;
    assert!(rt; journal.serve(alloc, Command::End(Bytes::from_vec(signature)))?);
    assert_eq!(rt; journal.number, 2);
    assert_eq!(rt; journal.gbc, 1);
    let following = journal.prepare(seconds + 1)?;
    assert_eq!(rt; following, seconds + 2);
    assert!(rt; journal.turn(alloc, following)?);
    let again = journal.last(alloc)?;
    assert_eq!(rt; again, seconds);
    let third = journal.wake(alloc, seconds, again)?;
    assert_eq!(rt; third, seconds + 4);
    assert!(rt; journal.turn(alloc, third)?);
    Ok(())
}
