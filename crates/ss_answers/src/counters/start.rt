//! Where an originator goes on, by the counters of its session.
ghost use Rattle.std.specs.Prelude.{◌≡◌, ◌++◌, ◌∷◌, [], ℕ, false, true, Err, All, IfOk, OnOk, IfErr, MatchOption};
ghost use Rattle.std.specs.List.{list_any};
ghost use Rattle.ss_origin.specs.Counting.{are_counters};
ghost use Rattle.ss_review.specs.counted.CounterRange.{IsCounter};
ghost use Rattle.ss_review.specs.counted.Kept.{blocks_said, counters_of, gbc_in, number_in, number_said};
ghost use Rattle.ss_review.specs.counted.KeptSoFar.{led_to};
ghost use Rattle.ss_review.specs.sessions.Sessions.{same_session};
ghost use Rattle.ss_answers.specs.Start.{IsFirstOther, IsStartFault, counts_blocks, is_in, is_of_blocks};
ghost use Rattle.ss_answers.specs.Start.{is_of_other, number_if_said, numbers_in, start_of};
ghost use Rattle.ss_answers.specs.declared.counters.start_fault.StartFault.TheVariants.{NoSession, OtherGroup};

use crate::counters::start_fault::StartFault;
use ss_block::{Group, Session};
use ss_octets::NoMemory;
use ss_origin::{Counters, Grouping, NextNumber, NextNumbers, has_group};
use ss_review::{Counter, Counts};
use std::alloc::Global;

/// One more than the greatest SPRI.
const SPRI_COUNT: u8 = 192;

/// Where an originator of a session goes on, with this grouping: at the greatest of the counters that count the same.
/// Counters of other sessions are left alone.
///
/// # Errors
///
/// `NoSession` exactly where no counter is of the session's signature blocks; else `OtherGroup` with the place, from 1,
/// of the first counter of the session whose group the grouping hasn't; `Memory`.
pub fn start_of(
    alloc: Global,
    session: &Session,
    grouping: &Grouping,
    counters: &[Counter],
) -> Result<Counters, StartFault>
    ensures ok { IfOk result (λ start. start ≡ start_of session.now grouping.now counters.now) }
    ensures err { IfErr result (IsStartFault session.now grouping.now counters.now) }
    // Both are seen before memory is taken.
    ensures no_session { list_any (is_of_blocks session.now) counters.now ≡ false → result ≡ Err NoSession }
    ensures other_group { (line : ℕ)
        → list_any (is_of_blocks session.now) counters.now ≡ true
        → IsFirstOther session.now grouping.now counters.now line
        → result ≡ Err (OtherGroup line) }
    // An originator with this grouping goes on there.
    ensures fit { All IsCounter counters.now
        → IfOk result (λ start. are_counters grouping.now start ≡ true) }
{
    if !has_blocks(counters, session) {
        return Err(StartFault::NoSession);
    }
    if let Some(counter) = other_group(counters, session, grouping) {
        return Err(StartFault::OtherGroup { counter });
    }
    let own = own_counters(alloc, counters, session)?;
    let groups = next_numbers(alloc, own.as_slice(), grouping.sg())?;
    Ok(Counters {
        gbc: greatest_gbc(own.as_slice()),
        groups: NextNumbers::from_vec(groups),
    })
}

/// Whether the counter is of this session.
fn is_of(counter: &Counter, session: &Session) -> bool
    ensures { result ≡ same_session counter.now.session session.now }
{
    counter.session == *session
}

/// Whether signature blocks are counted.
fn counts_blocks(counts: Counts) -> bool
    ensures { result ≡ counts_blocks counts }
{
    match counts {
        Counts::Blocks => true,
        Counts::Messages(_) => false,
    }
}

/// Whether a counter is of the session's signature blocks.
fn has_blocks(counters: &[Counter], session: &Session) -> bool
    ensures { result ≡ list_any (is_of_blocks session.now) counters.now }
{
    counters.iter().any(|counter| is_of(counter, session) && counts_blocks(counter.counts))
}

/// Whether the grouping has what is counted.
fn is_in(grouping: &Grouping, counts: Counts) -> bool
    ensures { result ≡ is_in grouping.now counts }
{
    match counts {
        Counts::Blocks => true,
        Counts::Messages(group) => { group.sg == grouping.sg() && has_group(grouping, group.spri) }
    }
}

/// The place, from 1, of the first counter of the session whose group the grouping hasn't.
fn other_group(counters: &[Counter], session: &Session, grouping: &Grouping) -> Option<u64>
    ensures { MatchOption result (list_any (is_of_other session.now grouping.now) counters.now ≡ false)
        (IsFirstOther session.now grouping.now counters.now) }
{
    let mut line = 0;
    for counter in counters {
        line += 1;
        if is_of(counter, session) && !is_in(grouping, counter.counts) {
            return Some(line);
        }
    }
    None
}

/// Adds the counter, if it is of the session.
fn add_own<'a>(
    own: &mut Vec<&'a Counter>,
    counter: &'a Counter,
    session: &Session,
) -> Result<(), NoMemory>
    ensures { OnOk result (led_to own.new.items
        ≡ led_to own.old.items ++ counters_of (counter.now ∷ []) session.now) }
{
    if is_of(counter, session) {
        own.push(counter)?;
    }
    Ok(())
}

/// The counters of the session, in their order.
fn own_counters<'a>(
    alloc: Global,
    counters: &'a [Counter],
    session: &Session,
) -> Result<Vec<&'a Counter>, NoMemory>
    ensures { IfOk result (λ own. led_to own.items ≡ counters_of counters.now session.now) }
{
    let mut own = Vec::new(alloc);
    for counter in counters {
        add_own(&mut own, counter, session)?;
    }
    Ok(own)
}

/// How many signature blocks the session had sent, where the counter says it, and else 0.
fn blocks_said(counter: &Counter) -> u64
    ensures { result ≡ blocks_said counter.now.counts counter.now.next }
{
    match counter.counts {
        Counts::Blocks => counter.next,
        Counts::Messages(_) => 0,
    }
}

/// The number of the group's next message, where the counter says it, and else 0.
fn number_said(counter: &Counter, group: Group) -> u64
    ensures { result ≡ number_said group counter.now.counts counter.now.next }
{
    match counter.counts {
        Counts::Blocks => 0,
        Counts::Messages(counted) => { if counted == group { counter.next } else { 0 } }
    }
}

/// The greatest GBC that counters of a session say, or 0 where none does.
fn greatest_gbc(own: &[&Counter]) -> u64
    ensures { result ≡ gbc_in (led_to own.now) }
{
    let mut greatest: u64 = 0;
    for counter in own {
        greatest = greatest.max(blocks_said(counter));
    }
    greatest
}

/// The greatest number that they say of the group's next message, or 0 where none does.
fn greatest_number(own: &[&Counter], group: Group) -> u64
    ensures { result ≡ number_in (led_to own.now) group }
{
    let mut greatest: u64 = 0;
    for counter in own {
        greatest = greatest.max(number_said(counter, group));
    }
    greatest
}

/// Adds the next number of a group, unless it is 0.
fn add_number(numbers: &mut Vec<NextNumber>, spri: u8, number: u64) -> Result<(), NoMemory>
    ensures { OnOk result (numbers.new.items ≡ numbers.old.items ++ number_if_said spri number) }
{
    if number == 0 {
        return Ok(());
    }
    numbers.push(NextNumber { spri, number })?;
    Ok(())
}

/// The next number of each group of this SG that they count, by rising SPRI.
fn next_numbers(alloc: Global, own: &[&Counter], sg: u8) -> Result<Vec<NextNumber>, NoMemory>
    ensures { IfOk result (λ numbers. numbers.items ≡ numbers_in (led_to own.now) sg) }
{
    let mut numbers = Vec::new(alloc);
    for spri in 0..SPRI_COUNT {
        let number = greatest_number(own, Group { sg, spri });
        add_number(&mut numbers, spri, number)?;
    }
    Ok(numbers)
}
