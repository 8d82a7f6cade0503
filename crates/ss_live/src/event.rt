//! Events of a driver, each a frame whose first octet is its kind.
ghost use Rattle.std.specs.Prelude.{◌≡◌, option_map};
ghost use Rattle.ss_message.specs.StampReading.{past};
ghost use Rattle.ss_octets.specs.Ascii.{sp};
ghost use Rattle.ss_live.specs.Events.{event_of, moment_at, seen, stamp_at};

use ss_block::LAST_NUMBER;
use ss_message::Stamp;
use ss_octets::{cut_first, number_of};
use ss_payload::stamp_of;

/// What a driver asks of the engine.
#[derive(Drop)]
pub enum Event<'a> {
    /// `b SECONDS STAMP`: begin, in the file that was written last.
    Begin(u64, Option<Stamp>),
    /// `m` OCTETS: a message.
    Message(&'a [u8]),
    /// `o` OCTETS: a message of the driver itself.
    Own(&'a [u8]),
    /// `c`: have all that was taken on the disk.
    Confirm,
    /// `s STAMP`: seal what waits.
    Seal(Option<Stamp>),
    /// `g` OCTETS: a signature of what was shown last.
    Give(&'a [u8]),
    /// `n SECONDS STAMP`: go on in another file.
    Next(u64, Option<Stamp>),
    /// `q`: end.
    End,
}

/// What follows the SP that stands first.
fn after_space(octets: &[u8]) -> Option<&[u8]>
    ensures { option_map (λ x. x.now) result ≡ past sp octets.now }
{
    match octets {
        [b' ', rest @ ..] => Some(rest),
        _ => None,
    }
}

/// The stamp of ` STAMP`.
#[tactic(auto, unfolding(crate::specs::Events::stamp_at))]
fn stamp_after(octets: &[u8]) -> Option<Option<Stamp>>
    ensures { result ≡ stamp_at octets.now }
{
    let text = after_space(octets)?;
    stamp_of(text)
}

/// The number and the stamp of ` SECONDS STAMP`.
#[tactic(auto, unfolding(crate::specs::Events::moment_at))]
fn moment_after(octets: &[u8]) -> Option<(u64, Option<Stamp>)>
    ensures { result ≡ moment_at octets.now }
{
    let text = after_space(octets)?;
    let (digits, text) = cut_first(text, b' ')?;
    let seconds = number_of(1, LAST_NUMBER, digits)?;
    let stamp = stamp_of(text)?;
    Some((seconds, stamp))
}

/// The event that all the octets of a frame spell; `None` if they spell none.
pub fn event_in<'a>(octets: &'a [u8]) -> Option<Event<'a>>
    ensures { option_map seen result ≡ event_of octets.now }
{
    let [kind, rest @ ..] = octets else {
        return None;
    };
    match *kind {
        b'm' => Some(Event::Message(rest)),
        b'o' => Some(Event::Own(rest)),
        b'g' => Some(Event::Give(rest)),
        b'c' if rest.is_empty() => Some(Event::Confirm),
        b'q' if rest.is_empty() => Some(Event::End),
        b's' => {
            let stamp = stamp_after(rest)?;
            Some(Event::Seal(stamp))
        }
        b'b' => {
            let (seconds, stamp) = moment_after(rest)?;
            Some(Event::Begin(seconds, stamp))
        }
        b'n' => {
            let (seconds, stamp) = moment_after(rest)?;
            Some(Event::Next(seconds, stamp))
        }
        _ => None,
    }
}
