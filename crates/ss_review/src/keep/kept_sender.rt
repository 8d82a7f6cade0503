//! Where who sent a block stands in its signed octets, as a review keeps it.
ghost use Rattle.std.specs.Prelude.{◌≡◌};
ghost use Rattle.ss_review.specs.keep.KeptSender.{span_at, places_at, IsShort, AreShort};

use ss_block::SessionPlaces;
use ss_message::Span;

/// A span whose ends are below 4,294,967,296.
#[derive(Clone, Copy, Debug)]
pub(crate) struct ShortSpan {
    start: u32,
    end: u32,
}

impl ShortSpan {
    /// The same span in less room.
    pub(crate) fn of(span: Span) -> ShortSpan
        requires { IsShort span }
        ensures { span_at result ≡ span }
    {
        ShortSpan {
            start: span.start as u32,
            end: span.end as u32,
        }
    }

    /// The same span in the room of every other.
    pub(crate) fn span(self) -> Span
        ensures { result ≡ span_at self }
    {
        Span {
            start: self.start as usize,
            end: self.end as usize,
        }
    }
}

/// The places of HOSTNAME, APP-NAME and PROCID, and RSID.
#[derive(Clone, Copy, Debug)]
pub(crate) struct KeptSender {
    host: ShortSpan,
    app: ShortSpan,
    procid: ShortSpan,
    /// RSID, 0 to 9,999,999,999.
    rsid: u64,
}

impl KeptSender {
    /// The same places in less room.
    pub(crate) fn of(places: SessionPlaces) -> KeptSender
        requires { AreShort places }
        ensures { places_at result ≡ places }
    {
        KeptSender {
            host: ShortSpan::of(places.host),
            app: ShortSpan::of(places.app),
            procid: ShortSpan::of(places.procid),
            rsid: places.rsid,
        }
    }

    /// The same places in the room of every other.
    pub(crate) fn places(self) -> SessionPlaces
        ensures { result ≡ places_at self }
    {
        SessionPlaces {
            host: self.host.span(),
            app: self.app.span(),
            procid: self.procid.span(),
            rsid: self.rsid,
        }
    }

    /// RSID, 0 to 9,999,999,999.
    pub(crate) fn rsid(self) -> u64
        ensures { result ≡ self.rsid }
    {
        self.rsid
    }
}
