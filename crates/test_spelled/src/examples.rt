//! The examples of the READMEs of `ss_spelled` and `ss_lines`, line by line.
use ss_frame::Watched;
use ss_lines::{LineEnd, next_line};
use ss_octets::{Bytes, NoMemory};
use ss_spelled::{Bounds, Fragment, spell};
use std::alloc::Global;
use std::test::Fail;

fn spells_several(alloc: Global, fragments: &[Fragment], bounds: Bounds) -> Result<bool, NoMemory> {
    let found = spell(alloc, fragments, bounds)?;
    let several = found.cut || found.texts.as_slice().len() > 1;
    Ok(several)
}

fn line_of(alloc: Global, octets: &[u8]) -> (Vec<u8>, bool) {
    let mut reader = Watched::new(octets);
    let mut line = Vec::new(alloc);
    let end = next_line(&mut reader, &mut line);
    (line, matches!(end, LineEnd::Lf))
}

#[test]
fn fragments_spell_one_or_several(rt: HostRuntime) -> Result<(), Fail> {
    let alloc = rt.alloc();
    let bounds = Bounds {
        texts: 9,
        steps: 1000,
    };
    let mut fragments = Vec::new(alloc);
    for octets in [b"a", b"b"] {
        fragments.push(Fragment {
            total: 1,
            index: 1,
            octets: Bytes::from_vec(octets.to_vec(alloc)?),
        })?;
        let several = fragments.len() == 2;
        assert_eq!(rt;
            spells_several(alloc, fragments.as_slice(), bounds)?,
            several
        );
    }
    Ok(())
}

#[test]
fn lines_end(rt: HostRuntime) {
    let alloc = rt.alloc();
    let (line, is_ended) = line_of(alloc, b"ab\nc");
    assert_eq!(rt; line.as_slice(), b"ab".as_slice());
    assert!(rt; is_ended);
    let (rest, is_ended) = line_of(alloc, b"c");
    assert_eq!(rt; rest.as_slice(), b"c".as_slice());
    assert!(rt; !is_ended);
}
