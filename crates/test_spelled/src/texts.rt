//! Rows of fragments, and the payloads that they spell, found by hand.
use ss_octets::{Bytes, NoMemory};
use ss_spelled::{Bounds, Fragment, Spelled, spell};
use std::alloc::Global;
use std::test::Fail;

/// A fragment: TPBL, INDEX and FRAG.
type Row<'a> = (u32, u32, &'a [u8]);

/// Bounds that no row here comes to.
const WIDE: Bounds = Bounds {
    texts: 9,
    steps: 1000,
};

fn spelled_by(alloc: Global, rows: &[Row<'_>], bounds: Bounds) -> Result<Spelled, NoMemory> {
    let mut fragments = Vec::new(alloc);
    for (total, index, octets) in rows {
        fragments.push(Fragment {
            total: *total,
            index: *index,
            octets: Bytes::from_vec(octets.to_vec(alloc)?),
        })?;
    }
    spell(alloc, fragments.as_slice(), bounds)
}

/// The payloads, each after a `;`, and then `!` if the search was cut.
fn shown(alloc: Global, rows: &[Row<'_>], bounds: Bounds) -> Result<Vec<u8>, NoMemory> {
    let spelled = spelled_by(alloc, rows, bounds)?;
    let mut text = Vec::new(alloc);
    for payload in spelled.texts.as_slice() {
        text.push(b';')?;
        text.extend_from_slice(payload.as_slice())?;
    }
    if spelled.cut {
        text.push(b'!')?;
    }
    Ok(text)
}

#[test]
fn fragments_that_agree(rt: HostRuntime) -> Result<(), Fail> {
    let alloc = rt.alloc();
    let overlap = [(4, 2, b"bcd".as_slice()), (4, 1, b"ab".as_slice())];
    assert_eq!(rt;
        shown(alloc, &overlap, WIDE)?.as_slice(),
        b";abcd".as_slice()
    );
    let again = [(2, 1, b"ab".as_slice()), (2, 1, b"ab".as_slice())];
    assert_eq!(rt; shown(alloc, &again, WIDE)?.as_slice(), b";ab".as_slice());
    let two_totals = [
        (2, 2, b"b".as_slice()),
        (1, 1, b"z".as_slice()),
        (2, 1, b"a".as_slice()),
    ];
    assert_eq!(rt;
        shown(alloc, &two_totals, WIDE)?.as_slice(),
        b";z;ab".as_slice()
    );
    assert_eq!(rt; shown(alloc, &[], WIDE)?.as_slice(), b"".as_slice());
    Ok(())
}

#[test]
fn fragments_that_contradict(rt: HostRuntime) -> Result<(), Fail> {
    let alloc = rt.alloc();
    let either = [
        (3, 1, b"xb".as_slice()),
        (3, 3, b"c".as_slice()),
        (3, 1, b"ab".as_slice()),
    ];
    assert_eq!(rt;
        shown(alloc, &either, WIDE)?.as_slice(),
        b";abc;xbc".as_slice()
    );
    // the octet at 2 is `b` beside `a`, and `x` beside `c`
    let neither = [(3, 1, b"ab".as_slice()), (3, 2, b"xc".as_slice())];
    assert_eq!(rt; shown(alloc, &neither, WIDE)?.as_slice(), b"".as_slice());
    // the longer one alone is all of it
    let within = [(2, 1, b"ab".as_slice()), (2, 2, b"x".as_slice())];
    assert_eq!(rt; shown(alloc, &within, WIDE)?.as_slice(), b";ab".as_slice());
    Ok(())
}

#[test]
fn fragments_that_spell_nothing(rt: HostRuntime) -> Result<(), Fail> {
    let alloc = rt.alloc();
    let gap = [(3, 1, b"a".as_slice()), (3, 3, b"c".as_slice())];
    assert_eq!(rt; shown(alloc, &gap, WIDE)?.as_slice(), b"".as_slice());
    let long = [(2, 1, b"abc".as_slice())];
    assert_eq!(rt; shown(alloc, &long, WIDE)?.as_slice(), b"".as_slice());
    let before = [(2, 0, b"ab".as_slice()), (2, 2, b"b".as_slice())];
    assert_eq!(rt; shown(alloc, &before, WIDE)?.as_slice(), b"".as_slice());
    let empty = [(0, 1, b"".as_slice()), (1, 1, b"".as_slice())];
    assert_eq!(rt; shown(alloc, &empty, WIDE)?.as_slice(), b"".as_slice());
    Ok(())
}

#[test]
fn searches_are_cut(rt: HostRuntime) -> Result<(), Fail> {
    let alloc = rt.alloc();
    let either = [
        (3, 1, b"ab".as_slice()),
        (3, 1, b"xb".as_slice()),
        (3, 3, b"c".as_slice()),
    ];
    // a step each for the fronts ``, `ab`, `xb`, `abc` and `xbc`, and two for each of four fragments that are tried
    let enough = Bounds {
        texts: 2,
        steps: 13,
    };
    assert_eq!(rt;
        shown(alloc, &either, enough)?.as_slice(),
        b";abc;xbc".as_slice()
    );
    let steps = Bounds {
        texts: 2,
        steps: 12,
    };
    assert_eq!(rt;
        shown(alloc, &either, steps)?.as_slice(),
        b";abc!".as_slice()
    );
    let texts = Bounds {
        texts: 1,
        steps: 13,
    };
    assert_eq!(rt;
        shown(alloc, &either, texts)?.as_slice(),
        b";abc!".as_slice()
    );
    Ok(())
}
