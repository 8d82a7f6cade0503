//! Where the session of a block stands in its signed octets.
ghost use Rattle.std.specs.Prelude.{◌≡◌, Some, IfOk};
ghost use Rattle.ss_message.specs.Layout.{value_of};
ghost use Rattle.ss_block.specs.Parsed.{IsRead};
ghost use Rattle.ss_block.specs.PlacedReading.{HasRsid, StandsBefore};
ghost use Rattle.ss_block.specs.Reading.{value_reading};
ghost use Rattle.ss_block.specs.Session.{session_if_block};
ghost use Rattle.ss_block.specs.SessionPlaces.{HasSender, LieIn, session_at};
ghost use Rattle.ss_block.specs.Signed.{signed_if_block};

use crate::reading::Reading;
use crate::session::{Session, field};
use ss_message::{Message, Span};
use ss_octets::NoMemory;
use std::alloc::Global;

/// Where HOSTNAME, APP-NAME and PROCID of a block stand in its signed octets, and its RSID: who sent it (RFC 5848,
/// section 4.2).
#[derive(Clone, Copy, Debug)]
pub struct SessionPlaces {
    /// HOSTNAME; `-` if it is absent.
    pub host: Span,
    /// APP-NAME; `-` if it is absent.
    pub app: Span,
    /// PROCID; `-` if it is absent.
    pub procid: Span,
    /// RSID, 0 to 9,999,999,999.
    pub rsid: u64,
}

impl SessionPlaces {
    /// The session that is spelled at these places of `octets`, in which they have to lie.
    ///
    /// Errs only where memory runs out, which is taken for the three fields.
    pub fn session(&self, alloc: Global, octets: &[u8]) -> Result<Session, NoMemory>
        requires { LieIn octets.now self.now }
        ensures { IfOk result (λ s. s ≡ session_at octets.now self.now) }
    {
        Ok(Session {
            host: field(alloc, self.host.of(octets))?,
            app: field(alloc, self.app.of(octets))?,
            procid: field(alloc, self.procid.of(octets))?,
            rsid: self.rsid,
        })
    }
}

/// Where the session of a message with this reading stands, if the reading is a block. The header stands before SIGN,
/// and so at the same places in the signed octets.
pub(crate) fn sender_with(message: &Message<'_>, reading: &Reading) -> Option<SessionPlaces>
    requires read { IsRead message.now }
    requires reading { reading.now ≡ value_reading (value_of message.now) }
    ensures sender { HasSender (signed_if_block reading.now (value_of message.now)) result
        (session_if_block reading.now (value_of message.now)) }
    ensures before { StandsBefore result (Some message.now.msgid) }
    ensures rsid { HasRsid result reading.now }
{
    let rsid = match reading {
        Reading::Signature(block) => block.header().rsid,
        Reading::Certificate(block) => block.header().rsid,
        Reading::Plain | Reading::Unparsed { .. } | Reading::Spoilt(_) => return None,
    };
    Some(SessionPlaces {
        host: message.hostname,
        app: message.app_name,
        procid: message.procid,
        rsid,
    })
}
