//! Announced message numbers.
ghost use Rattle.std.specs.Prelude.{◌≡◌, ◌<◌, length};
ghost use Rattle.ss_review.specs.announced.Numbered.{key_of};
ghost use Rattle.ss_review.specs.announced.Indexed.{key_at};

use crate::announced::indexed_number::IndexedNumber;
use crate::sessions::joined_session::JoinedSession;
use ss_block::{Group, Session};

/// A message number (1 to 9,999,999,999) in its group and session (RFC 5848, section 4.2).
#[derive(Clone, Copy)]
pub(crate) struct MessageNumber<'a> {
    pub(crate) session: &'a Session,
    pub(crate) group: Group,
    pub(crate) number: u64,
}

/// The number with its session, which is one of these.
pub(crate) fn with_session<'a>(
    sessions: &'a [JoinedSession],
    number: IndexedNumber,
) -> MessageNumber<'a>
    requires { number.session < length sessions.now }
    ensures { key_of result ≡ key_at sessions.now number }
{
    MessageNumber {
        session: &sessions[number.session as usize].session,
        group: number.group,
        number: number.number,
    }
}
