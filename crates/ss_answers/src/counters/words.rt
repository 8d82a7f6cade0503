//! The words of a line that is a counter, as they stand in it.
ghost use Rattle.std.specs.Prelude.{◌≡◌, MatchOption};
ghost use Rattle.std.specs.List.{list_all};
ghost use Rattle.ss_message.specs.Octets.{is_printable, is_text};
ghost use Rattle.ss_review.specs.declared.counted.counter.Counts.TheVariants.{Messages};
ghost use Rattle.ss_answers.specs.CounterLine.{BeginsWithNoNumber, BeginsWithNoSession, BeginsWithNoWord};
ghost use Rattle.ss_answers.specs.CounterLine.{BeginsWithNumber, BeginsWithSession, BeginsWithWord, IsNoCounter};
ghost use Rattle.ss_answers.specs.CounterLine.{SpellsCounter, SpellsNext, SpellsNoGroup, SpellsNoNext, counter_by};
ghost use Rattle.ss_answers.specs.CounterLine.{session_by};

use crate::cut::cut_word;
use ss_block::{Group, LAST_NUMBER, PAST_LAST_NUMBER};
use ss_octets::number_of;
use ss_review::Counts;

/// The words of a session.
#[derive(Clone, Copy, Debug)]
pub struct SessionWords<'a> {
    /// HOSTNAME, or `-`.
    pub host: &'a [u8],
    /// APP-NAME, or `-`.
    pub app: &'a [u8],
    /// PROCID, or `-`.
    pub procid: &'a [u8],
    /// RSID, 0 to 9,999,999,999.
    pub rsid: u64,
}

/// The words of a counter.
#[derive(Clone, Copy, Debug)]
pub struct CounterWords<'a> {
    /// Those of its session.
    pub session: SessionWords<'a>,
    /// What it counts.
    pub counts: Counts,
    /// The GBC or the number of what comes next.
    pub next: u64,
}

/// The words of a line, which is given without its line feed. `None` exactly where it is no counter.
pub fn counter_words(text: &[u8]) -> Option<CounterWords<'_>>
    ensures { MatchOption result (IsNoCounter text.now) (λ w. SpellsCounter text.now (counter_by w)) }
{
    let Some(fields) = text.strip_prefix(b"count ") else {
        return None;
    };
    let Some((session, rest)) = session_words(fields) else {
        return None;
    };
    let Some((counts, next)) = next_words(rest) else {
        return None;
    };
    Some(CounterWords {
        session,
        counts,
        next,
    })
}

/// The words HOST APP PROCID RSID, and what stands after them.
fn session_words(text: &[u8]) -> Option<(SessionWords<'_>, &[u8])>
    ensures { MatchOption result (BeginsWithNoSession text.now)
        (λ p. BeginsWithSession text.now (session_by p.0) p.1.now) }
{
    let Some((host, behind_host)) = field_word(255, text) else {
        return None;
    };
    let Some((app, behind_app)) = field_word(48, behind_host) else {
        return None;
    };
    let Some((procid, behind_procid)) = field_word(128, behind_app) else {
        return None;
    };
    let Some((rsid, rest)) = number_word(0, LAST_NUMBER, behind_procid) else {
        return None;
    };
    let words = SessionWords {
        host,
        app,
        procid,
        rsid,
    };
    Some((words, rest))
}

/// What is counted, and what comes next of it: GBC, or SG SPRI NUMBER.
fn next_words(text: &[u8]) -> Option<(Counts, u64)>
    ensures { MatchOption result (SpellsNoNext text.now) (λ p. SpellsNext text.now p.0 p.1) }
{
    if let Some(gbc) = number_of(0, PAST_LAST_NUMBER, text) {
        return Some((Counts::Blocks, gbc));
    }
    match group_words(text) {
        Some((group, number)) => Some((Counts::Messages(group), number)),
        None => None,
    }
}

/// SG SPRI NUMBER.
fn group_words(text: &[u8]) -> Option<(Group, u64)>
    ensures { MatchOption result (SpellsNoGroup text.now) (λ p. SpellsNext text.now (Messages p.0) p.1) }
{
    let Some((sg, behind_sg)) = number_word(0, 3, text) else {
        return None;
    };
    let Some((spri, behind_spri)) = number_word(0, 191, behind_sg) else {
        return None;
    };
    let Some(number) = number_of(1, PAST_LAST_NUMBER, behind_spri) else {
        return None;
    };
    let group = Group {
        sg: sg as u8,
        spri: spri as u8,
    };
    Some((group, number))
}

/// The first word of a text, if it has 1 to `limit` octets of printable US-ASCII, and what stands after it. A
/// header field is spelt so, also an absent one, `-`.
fn field_word(limit: usize, text: &[u8]) -> Option<(&[u8], &[u8])>
    ensures { MatchOption result (BeginsWithNoWord limit text.now)
        (λ p. BeginsWithWord limit text.now p.0.now p.1.now) }
{
    let Some((word, rest)) = cut_word(text) else {
        return None;
    };
    if is_text(limit, word) {
        Some((word, rest))
    } else {
        None
    }
}

/// Whether these are 1 to `limit` octets of printable US-ASCII.
#[tactic(auto, unfolding(ss_message::specs::Octets::is_text))]
fn is_text(limit: usize, octets: &[u8]) -> bool
    ensures { result ≡ is_text limit octets.now }
{
    1 <= octets.len() && octets.len() <= limit && are_printable(octets)
}

/// Whether each octet is printable US-ASCII, without the space (RFC 5424, section 6).
fn are_printable(octets: &[u8]) -> bool
    ensures { result ≡ list_all is_printable octets.now }
{
    for octet in octets {
        if !octet.is_ascii_graphic() {
            return false;
        }
    }
    true
}

/// The number that the first word of a text spells, if it is from `least` to `most`, and what stands after it.
fn number_word(least: u64, most: u64, text: &[u8]) -> Option<(u64, &[u8])>
    ensures { MatchOption result (BeginsWithNoNumber least most text.now)
        (λ p. BeginsWithNumber least most text.now p.0 p.1.now) }
{
    let Some((word, rest)) = cut_word(text) else {
        return None;
    };
    match number_of(least, most, word) {
        Some(number) => Some((number, rest)),
        None => None,
    }
}
