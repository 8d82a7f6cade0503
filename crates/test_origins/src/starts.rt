//! Which configurations and counters an originator is made of: both ends of each range, and what lies beyond them.
use super::sealing::{COUNT, Counting};
use super::settings::{At, Groups, Setting, config, counters, payload};
use Groups::{ByPri, One, Ranges};
use ss_block::Alg;
use ss_origin::{NotStarted, OriginFault, Originator};
use std::process::Abort;
use std::test::Fail;

/// RSID, the grouping, how many hashes a block has, how many copies are sent, how many octets a piece has, and whether
/// an originator is made.
type Row = (u64, Groups, u8, u8, u16, bool);

const SETTINGS: [Row; 29] = [
    (1, ByPri, 2, 1, 20, true),
    (0, ByPri, 2, 1, 20, true),
    (9_999_999_999, ByPri, 2, 1, 20, true),
    (10_000_000_000, ByPri, 2, 1, 20, false),
    (u64::MAX, ByPri, 2, 1, 20, false),
    (1, ByPri, 0, 1, 20, false),
    (1, ByPri, 1, 1, 20, true),
    (1, ByPri, 99, 1, 20, true),
    (1, ByPri, 100, 1, 20, false),
    (1, ByPri, 2, 0, 20, false),
    (1, ByPri, 2, 9, 20, true),
    (1, ByPri, 2, 10, 20, false),
    (1, ByPri, 2, 1, 0, false),
    (1, ByPri, 2, 1, 1, true),
    (1, ByPri, 2, 1, 9_999, true),
    (1, ByPri, 2, 1, 10_000, false),
    (1, One(0), 2, 1, 20, true),
    (1, One(191), 2, 1, 20, true),
    (1, One(192), 2, 1, 20, false),
    (1, One(255), 2, 1, 20, false),
    (1, Ranges(&[]), 2, 1, 20, false),
    (1, Ranges(&[191]), 2, 1, 20, true),
    (1, Ranges(&[190]), 2, 1, 20, false),
    (1, Ranges(&[192]), 2, 1, 20, false),
    (1, Ranges(&[0, 13, 191]), 2, 1, 20, true),
    (1, Ranges(&[13, 13, 191]), 2, 1, 20, false),
    (1, Ranges(&[14, 13, 191]), 2, 1, 20, false),
    (1, Ranges(&[191, 191]), 2, 1, 20, false),
    (1, Ranges(&[13, 191, 192]), 2, 1, 20, false),
];

/// Counters, the grouping, and whether an originator is made at them.
const COUNTERS: [(At, Groups, bool); 21] = [
    (At(0, &[]), ByPri, true),
    (At(10_000_000_000, &[]), ByPri, true),
    (At(10_000_000_001, &[]), ByPri, false),
    (At(u64::MAX, &[]), ByPri, false),
    (At(0, &[(13, 0)]), ByPri, false),
    (At(0, &[(13, 1)]), ByPri, true),
    (At(0, &[(13, 10_000_000_000)]), ByPri, true),
    (At(0, &[(13, 10_000_000_001)]), ByPri, false),
    (At(0, &[(13, 2), (14, 0)]), ByPri, false),
    (At(0, &[(0, 2), (13, 1), (14, 5), (191, 9)]), ByPri, true),
    (At(0, &[(14, 2), (13, 2)]), ByPri, false),
    (At(0, &[(13, 2), (13, 2)]), ByPri, false),
    (At(0, &[(192, 2)]), ByPri, false),
    (At(0, &[(7, 2)]), One(7), true),
    (At(0, &[(8, 2)]), One(7), false),
    (At(0, &[(7, 2), (8, 2)]), One(7), false),
    (At(0, &[(13, 2), (191, 2)]), Ranges(&[13, 191]), true),
    (At(0, &[(12, 2)]), Ranges(&[13, 191]), false),
    (At(0, &[(14, 2)]), Ranges(&[13, 191]), false),
    (At(0, &[(191, 2), (13, 2)]), Ranges(&[13, 191]), false),
    (At(0, &[]), One(192), false),
];

/// Whether an originator is made, at these counters if there are any. Whatever comes of it, its sealer is there still, and
/// was asked nothing.
fn is_made(
    rt: &(impl Abort + AllocGlobal),
    setting: &Setting,
    at: Option<At>,
) -> Result<bool, OriginFault> {
    let alloc = rt.alloc();
    let (Some(config), Some(payload)) = (config(alloc, setting)?, payload(alloc)?) else {
        return Err(OriginFault::Memory);
    };
    let sealer = Counting {
        payload,
        count: COUNT,
    };
    let made = match at {
        None => Originator::new(alloc, config, sealer),
        Some(at) => Originator::resume(alloc, config, sealer, &counters(alloc, &at)?),
    };
    match made {
        Ok(originator) => {
            assert_eq!(rt;
                originator.into_sealer().count,
                COUNT,
                "{setting:?} at {at:?}"
            );
            Ok(true)
        }
        Err(NotStarted { fault, sealer }) => {
            assert_eq!(rt; sealer.count, COUNT, "{setting:?} at {at:?}");
            if fault == OriginFault::BadConfig {
                Ok(false)
            } else {
                Err(fault)
            }
        }
    }
}

/// The setting of a row.
fn setting(row: &Row) -> Setting {
    let (rsid, groups, per_block, copies, frag, _) = *row;
    Setting {
        msgid: None,
        alg: Alg::Sha1,
        rsid,
        groups,
        per_block,
        copies,
        frag,
    }
}

/// An originator is made exactly where it is to be: a new one, and one after another that sent nothing.
fn sees_setting(rt: &(impl Abort + AllocGlobal), row: &Row) -> Result<(), OriginFault> {
    let setting = setting(row);
    let anew = is_made(rt, &setting, None)?;
    assert_eq!(rt; anew, row.5, "{setting:?}");
    let behind = is_made(rt, &setting, Some(At(0, &[])))?;
    assert_eq!(rt; behind, row.5, "{setting:?} behind another");
    Ok(())
}

fn sees_counters(
    rt: &(impl Abort + AllocGlobal),
    at: At,
    groups: Groups,
    wanted: bool,
) -> Result<(), OriginFault> {
    let row: Row = (1, groups, 2, 1, 20, true);
    let made = is_made(rt, &setting(&row), Some(at))?;
    assert_eq!(rt; made, wanted, "{at:?} of {groups:?}");
    Ok(())
}

#[test]
fn starts(rt: HostRuntime) -> Result<(), Fail> {
    for row in &SETTINGS {
        sees_setting(&rt, row)?;
    }
    for (at, groups, made) in &COUNTERS {
        sees_counters(&rt, *at, *groups, *made)?;
    }
    Ok(())
}

/// `tests/memory.sh` refuses each allocation of this test in turn, and it passes each time: where memory runs out the
/// sealer is given back, and was asked nothing. Made again, the originator is made.
#[test]
fn gives_back_the_sealer_for_want_of_memory(rt: HostRuntime) -> Result<(), Fail> {
    for at in [None, Some(At(7, &[(13, 5)]))] {
        let setting = setting(&SETTINGS[0]);
        let mut made = is_made(&rt, &setting, at);
        if made == Err(OriginFault::Memory) {
            made = is_made(&rt, &setting, at);
        }
        assert_eq!(rt; made, Ok(true), "{at:?}");
    }
    Ok(())
}
