//! One line of a file of counters.
ghost use Rattle.std.specs.Prelude.{◌≡◌, IfOk, IfErr};
ghost use Rattle.ss_answers.specs.AnswerLine.{IfBad};
ghost use Rattle.ss_answers.specs.CounterLine.{IsNoCounter, SpellsCounter, counter_by, field_by};

use crate::counters::words::{CounterWords, counter_words};
use crate::field::LineFault;
use ss_block::Session;
use ss_message::Field;
use ss_octets::List;
use ss_review::Counter;
use std::alloc::{AllocError, Global};

/// The counter of a line, which is given without its line feed.
///
/// # Errors
///
/// `Bad` where the text is no counter; `Memory`.
pub fn read_counter(alloc: Global, text: &[u8]) -> Result<Counter, LineFault>
    ensures ok { IfOk result (λ counter. SpellsCounter text.now counter) }
    ensures bad { IfErr result (λ fault. IfBad fault (IsNoCounter text.now)) }
{
    let Some(words) = counter_words(text) else {
        return Err(LineFault::Bad);
    };
    match counter_of(alloc, words) {
        Ok(counter) => Ok(counter),
        Err(_) => Err(LineFault::Memory),
    }
}

/// The counter of these words, in memory of its own.
fn counter_of(alloc: Global, words: CounterWords<'_>) -> Result<Counter, AllocError>
    ensures { IfOk result (λ counter. counter ≡ counter_by words.entry) }
{
    let session = Session {
        host: field_of(alloc, words.session.host)?,
        app: field_of(alloc, words.session.app)?,
        procid: field_of(alloc, words.session.procid)?,
        rsid: words.session.rsid,
    };
    Ok(Counter {
        session,
        counts: words.counts,
        next: words.next,
    })
}

/// The header field that a word spells.
fn field_of(alloc: Global, octets: &[u8]) -> Result<Field, AllocError>
    ensures { IfOk result (λ field. field ≡ field_by octets.now) }
{
    if octets == b"-".as_slice() {
        return Ok(Field::Nil);
    }
    let octets = Vec::from_slice(alloc, octets)?;
    Ok(Field::Text(List::from_vec(octets)))
}
