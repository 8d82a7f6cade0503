//! The example of the README of `ss_signed`, line by line, and rows of octets and of lines.
use ss_frame::Watched;
use ss_octets::{Bytes, NoMemory};
use ss_signed::{DescribeFault, answer_to, object_of, read_signed, run_describe};
use std::alloc::Global;
use std::test::Fail;

/// A signature block without SIGN, as it is written.
const BLOCK: &[u8] =
    b"<46>1 - h a - - [ssign VER=\"0111\" RSID=\"1\" SG=\"0\" SPRI=\"0\" GBC=\"2\" FMN=\"3\" CNT=\"1\" \
HB=\"qZk+NkcGgWq6PiVxeFDCbJzQ2J0=\"]";

/// The same with a MSG.
const BLOCK_AND_MSG: &[u8] =
    b"<46>1 - h a - - [ssign VER=\"0111\" RSID=\"1\" SG=\"0\" SPRI=\"0\" GBC=\"2\" FMN=\"3\" CNT=\"1\" \
HB=\"qZk+NkcGgWq6PiVxeFDCbJzQ2J0=\"] x";

/// A certificate block without SIGN, whose fragment is `"9`.
const FRAGMENT: &[u8] =
    b"<0>1 - - - - - [ssign-cert VER=\"0121\" RSID=\"0\" SG=\"1\" SPRI=\"191\" TPBL=\"4\" INDEX=\"3\" FLEN=\"2\" \
FRAG=\"\\\"9\"]";

fn said(alloc: Global, octets: &[u8]) -> Result<(Bytes, Option<Bytes>), NoMemory> {
    let said = read_signed(alloc, octets)?;
    let object = object_of(alloc, &said)?;
    let answer = answer_to(alloc, b"want PDQ2PjE=")?;
    Ok((object, answer))
}

fn answered(alloc: Global, lines: &[u8]) -> Result<Vec<u8>, DescribeFault> {
    let mut reader = Watched::new(lines);
    let mut writer = Watched::new(Vec::new(alloc));
    run_describe(alloc, &mut reader, &mut writer)?;
    Ok(writer.into_inner())
}

#[test]
fn octets_have_objects(rt: HostRuntime) -> Result<(), Fail> {
    let alloc = rt.alloc();
    let (block, answer) = said(alloc, BLOCK)?;
    assert_eq!(rt;
        block.as_slice(),
        b"{\"line\":\"signature\",\"host\":\"h\",\"app\":\"a\",\"procid\":\"-\",\"rsid\":1,\
\"ver\":\"0111\",\"sg\":0,\"spri\":0,\"gbc\":2,\"first\":3,\"count\":1,\"exact\":1}\n"
            .as_slice()
    );
    assert!(rt; answer.is_some());
    let (beside, _) = said(alloc, BLOCK_AND_MSG)?;
    assert_eq!(rt;
        beside.as_slice(),
        b"{\"line\":\"signature\",\"host\":\"h\",\"app\":\"a\",\"procid\":\"-\",\"rsid\":1,\
\"ver\":\"0111\",\"sg\":0,\"spri\":0,\"gbc\":2,\"first\":3,\"count\":1}\n"
            .as_slice()
    );
    let (fragment, _) = said(alloc, FRAGMENT)?;
    assert_eq!(rt;
        fragment.as_slice(),
        b"{\"line\":\"certificate\",\"host\":\"-\",\"app\":\"-\",\"procid\":\"-\",\"rsid\":0,\
\"ver\":\"0121\",\"sg\":1,\"spri\":191,\"total\":4,\"index\":3,\"length\":2,\"fragment\":\"Ijk=\",\"exact\":1}\n"
            .as_slice()
    );
    Ok(())
}

#[test]
fn lines_are_answered(rt: HostRuntime) -> Result<(), Fail> {
    let alloc = rt.alloc();
    let lines = b"want PDQ2PjE=\ntrust? eA==\nyes? eA== eA== eA==\n";
    assert_eq!(rt;
        answered(alloc, lines)?.as_slice(),
        b"{\"line\":\"none\"}\n{\"line\":\"none\"}\n".as_slice()
    );
    assert_eq!(rt; answered(alloc, b"")?.as_slice(), b"".as_slice());
    Ok(())
}

#[test]
fn other_lines_are_refused(rt: HostRuntime) {
    let alloc = rt.alloc();
    let second = Some(DescribeFault::Line { number: 2 });
    assert_eq!(rt; answered(alloc, b"want eA==\nwant eA=\n").err(), second);
    assert_eq!(rt; answered(alloc, b"want eA==\nwant eA==").err(), second);
    assert_eq!(rt; answered(alloc, b"want eA==\n\n").err(), second);
    assert_eq!(rt;
        answered(alloc, b"want eA==\nyes? eA== eA==\n").err(),
        second
    );
}
