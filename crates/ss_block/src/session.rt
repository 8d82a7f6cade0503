//! The session of a block.
ghost use Rattle.std.specs.Prelude.{◌≡◌, IfOk};
ghost use Rattle.ss_message.specs.Layout.{field_of, value_of};
ghost use Rattle.ss_block.specs.Parsed.{IsRead};
ghost use Rattle.ss_block.specs.Reading.{reading};
ghost use Rattle.ss_block.specs.Session.{field_from, session, session_if_block};
ghost use Rattle.ss_block.specs.Writing.{head_session};

use crate::copies::{copy_of, copy_of_field};
use crate::head::Head;
use crate::reading::{Reading, read};
use ss_message::{Field, Message};
use ss_octets::NoMemory;
use std::alloc::Global;

/// Who sent a block, and since which reboot: fields of its message's header, and RSID (RFC 5848, section 4.2).
#[derive(Debug, Drop)]
pub struct Session {
    /// HOSTNAME.
    pub host: Field,
    /// APP-NAME.
    pub app: Field,
    /// PROCID.
    pub procid: Field,
    /// RSID, 0 to 9,999,999,999.
    pub rsid: u64,
}

impl Session {
    /// The session of the blocks that are sent under this head since the reboot with this RSID.
    ///
    /// Errs only where memory runs out, which is taken for the three fields.
    pub fn of_head(alloc: Global, head: &Head, rsid: u64) -> Result<Session, NoMemory>
        ensures { IfOk result (λ s. s ≡ head_session head.now rsid) }
    {
        Ok(Session {
            host: copy_of_field(alloc, head.hostname())?,
            app: copy_of_field(alloc, head.app_name())?,
            procid: copy_of_field(alloc, head.procid())?,
            rsid,
        })
    }

    /// The same session, in memory of its own. Errs only where memory runs out.
    pub fn try_clone(&self, alloc: Global) -> Result<Session, NoMemory>
        ensures { IfOk result (λ s. s ≡ self.now) }
    {
        Ok(Session {
            host: copy_of_field(alloc, &self.host)?,
            app: copy_of_field(alloc, &self.app)?,
            procid: copy_of_field(alloc, &self.procid)?,
            rsid: self.rsid,
        })
    }
}

/// The field of the header that these octets spell; `-` is the absent one.
pub(crate) fn field(alloc: Global, octets: &[u8]) -> Result<Field, NoMemory>
    ensures { IfOk result (λ f. f ≡ field_from (field_of octets.now)) }
{
    if octets == b"-".as_slice() {
        return Ok(Field::Nil);
    }
    Ok(Field::Text(copy_of(alloc, octets)?))
}

/// The session of a message with this reading, if the reading is a block.
#[tactic(auto, unfolding(crate::specs::Session::session))]
pub(crate) fn session_with(
    alloc: Global,
    message: &Message<'_>,
    reading: &Reading,
) -> Result<Option<Session>, NoMemory>
    requires { IsRead message.now }
    ensures { IfOk result (λ o. o ≡ session_if_block reading.now (value_of message.now)) }
{
    let rsid = match reading {
        Reading::Signature(block) => block.header().rsid,
        Reading::Certificate(block) => block.header().rsid,
        Reading::Plain | Reading::Unparsed { .. } | Reading::Spoilt(_) => return Ok(None),
    };
    Ok(Some(Session {
        host: field(alloc, message.part(message.hostname))?,
        app: field(alloc, message.part(message.app_name))?,
        procid: field(alloc, message.part(message.procid))?,
        rsid,
    }))
}

/// What the message in `bytes` is, as `classify` gives it, and its session, as `session_of` gives it, by one parse.
///
/// Errs only where memory runs out. Memory is taken as those two take it.
pub fn classify_with_session(
    alloc: Global,
    bytes: &[u8],
) -> Result<(Reading, Option<Session>), NoMemory>
    ensures reading { IfOk result (λ x. x.0 ≡ reading bytes.now) }
    ensures session { IfOk result (λ x. x.1 ≡ session bytes.now) }
{
    let (reading, message) = read(alloc, bytes)?;
    let Some(message) = message else {
        return Ok((reading, None));
    };
    let session = session_with(alloc, &message, &reading)?;
    Ok((reading, session))
}

/// The session of a block message: its HOSTNAME, APP-NAME and PROCID, and RSID. None unless `bytes` are a message
/// with a signature block or a certificate block, and not a spoilt one.
///
/// Errs only where memory runs out, which is taken for the parse, the block and the three fields.
pub fn session_of(alloc: Global, bytes: &[u8]) -> Result<Option<Session>, NoMemory>
    ensures { IfOk result (λ o. o ≡ session bytes.now) }
{
    let (_, session) = classify_with_session(alloc, bytes)?;
    Ok(session)
}
