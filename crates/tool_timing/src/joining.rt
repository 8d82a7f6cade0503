//! Joins fragments, of one octet each but for `pieces`. It times the joiner. The orders:
//!
//! - `rising`, `falling`, `shuffled`: at odd indexes of the longest payload, so that no two of them meet.
//! - `whole`: at each index of a payload of so many octets, falling.
//! - `pieces`: of 1,000 octets each, which make up a payload of so many octets, rising.
//! - `joiners`: each to a joiner of its own, all kept at once, of the longest payload.
use ss_block::{JoinState, Joined, Joiner, LONGEST_PAYLOAD};
use std::alloc::Global;
use std::io;

/// In which order fragments come.
#[derive(Clone, Copy)]
pub enum Order {
    Rising,
    Falling,
    Shuffled,
    Whole,
    Pieces,
    Joiners,
}

impl Order {
    /// The order of that name; another word is `rising`.
    pub(crate) fn named(word: &str) -> Order {
        match word {
            "falling" => Order::Falling,
            "shuffled" => Order::Shuffled,
            "whole" => Order::Whole,
            "pieces" => Order::Pieces,
            "joiners" => Order::Joiners,
            _ => Order::Rising,
        }
    }

    /// The index of the fragment that comes after `i` others of `count`.
    fn index(self, i: u32, count: u32) -> u32 {
        let place = match self {
            Order::Rising | Order::Pieces | Order::Joiners => i,
            Order::Falling | Order::Whole => count.wrapping_sub(1).wrapping_sub(i),
            // An odd factor gives each number below a power of two once.
            Order::Shuffled => i.wrapping_mul(2_654_435_761) % (1 << 20),
        };
        match self {
            Order::Whole => place.wrapping_add(1),
            Order::Pieces => place.wrapping_mul(1_000).wrapping_add(1),
            _ => place.wrapping_mul(2).wrapping_add(1),
        }
    }
}

/// Adds a fragment to a joiner. Whether it was added, and agreed.
fn add(joiner: &mut Joiner, total: u32, index: u32, fragment: &[u8]) -> bool {
    let length = fragment.len();
    if total < 1 || total > LONGEST_PAYLOAD || index < 1 || index > total {
        return false;
    }
    if length < 1 || length > 9_999 || index as usize + length - 1 > total as usize {
        return false;
    }
    match joiner.add(total, index, fragment) {
        Ok(Joined::Agreed) => true,
        Ok(Joined::Disagrees) | Err(_) => false,
    }
}

/// How many fragments one joiner took, and how long its payload is then.
fn join(alloc: Global, order: Order, count: u32) -> (u32, usize) {
    let mut joiner = Joiner::new(alloc);
    let mut agreed: u32 = 0;
    let total = match order {
        Order::Whole | Order::Pieces => count,
        _ => LONGEST_PAYLOAD,
    };
    let thousand = [b'x'; 1_000];
    let (fragments, fragment): (u32, &[u8]) = match order {
        Order::Pieces => (count / 1_000, &thousand),
        _ => (count, b"x"),
    };
    for i in 0..fragments {
        if add(&mut joiner, total, order.index(i, count), fragment) {
            agreed = agreed.wrapping_add(1);
        }
    }
    let length = match joiner.payload() {
        Ok(Some(text)) => text.as_slice().len(),
        Ok(None) | Err(_) => 0,
    };
    (agreed, length)
}

/// How many joiners, all kept, have one octet of the longest payload each.
fn keep(alloc: Global, count: u32) -> u32 {
    let mut joiners = Vec::new(alloc);
    let mut kept: u32 = 0;
    for i in 0..count {
        let mut joiner = Joiner::new(alloc);
        let agreed = add(
            &mut joiner,
            LONGEST_PAYLOAD,
            Order::Joiners.index(i, count),
            b"x",
        );
        if agreed && joiner.state() == JoinState::Incomplete && joiners.push(joiner).is_ok() {
            kept = kept.wrapping_add(1);
        }
    }
    kept
}

/// Joins so many fragments in this order, and prints what came of it.
pub(crate) fn run<R: Print + AllocGlobal>(rt: &R, order: Order, count: u32) -> io::Result<()> {
    if let Order::Joiners = order {
        println!(rt; "{} joiners", keep(rt.alloc(), count))?;
    } else {
        let (agreed, length) = join(rt.alloc(), order, count);
        println!(rt; "{agreed} agreed, payload of {length}")?;
    }
    Ok(())
}
