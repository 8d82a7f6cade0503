//! Rows of lines, and what is written about them.
use ss_frame::Watched;
use ss_spelled::{SpellFault, run_spell};
use std::alloc::Global;
use std::test::Fail;

fn answered(alloc: Global, lines: &[u8]) -> Result<Vec<u8>, SpellFault> {
    let mut reader = Watched::new(lines);
    let mut writer = Watched::new(Vec::new(alloc));
    run_spell(alloc, &mut reader, &mut writer)?;
    Ok(writer.into_inner())
}

#[test]
fn questions_are_answered(rt: HostRuntime) -> Result<(), Fail> {
    let alloc = rt.alloc();
    let lines =
        b"fragment 3 3 Yw==\nfragment 3 1 YWI=\nfragment 3 3 Yw==\nspell\nfragment 1 1 eg==\nspell\nspell\n";
    assert_eq!(rt;
        answered(alloc, lines)?.as_slice(),
        b"{\"line\":\"payload\",\"payload\":\"YWJj\"}\n{\"line\":\"spelled\",\"payloads\":1,\"cut\":0}\n\
{\"line\":\"payload\",\"payload\":\"eg==\"}\n{\"line\":\"spelled\",\"payloads\":1,\"cut\":0}\n\
{\"line\":\"spelled\",\"payloads\":0,\"cut\":0}\n"
            .as_slice()
    );
    assert_eq!(rt; answered(alloc, b"")?.as_slice(), b"".as_slice());
    Ok(())
}

#[test]
fn other_lines_are_refused(rt: HostRuntime) {
    let alloc = rt.alloc();
    let second = Some(SpellFault::Line { number: 2 });
    assert_eq!(rt; answered(alloc, b"spell\nspell").err(), second);
    assert_eq!(rt; answered(alloc, b"spell\nspell \n").err(), second);
    assert_eq!(rt; answered(alloc, b"spell\n\n").err(), second);
    assert_eq!(rt;
        answered(alloc, b"spell\nfragment 0 1 YQ==\n").err(),
        second
    );
    assert_eq!(rt;
        answered(alloc, b"spell\nfragment 100000000 1 YQ==\n").err(),
        second
    );
    assert_eq!(rt;
        answered(alloc, b"spell\nfragment 1 0 YQ==\n").err(),
        second
    );
    assert_eq!(rt;
        answered(alloc, b"spell\nfragment 1 01 YQ==\n").err(),
        second
    );
    assert_eq!(rt; answered(alloc, b"spell\nfragment 1 1 YQ=\n").err(), second);
    assert_eq!(rt;
        answered(alloc, b"spell\nfragment 1 1 YQ== \n").err(),
        second
    );
    assert_eq!(rt; answered(alloc, b"spell\nfragment 1 1\n").err(), second);
}

#[test]
fn faults_have_codes(rt: HostRuntime) {
    let line = SpellFault::Line { number: 7 }.code();
    assert_eq!(rt; line.name, "G1");
    assert_eq!(rt; line.place, Some(7));
    assert_eq!(rt; SpellFault::Write.code().name, "W1");
}
