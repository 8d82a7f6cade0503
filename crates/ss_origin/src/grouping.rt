//! The groups in which messages are numbered (RFC 5848, section 4.2.3).
ghost use Rattle.std.specs.Prelude.{◌≡◌};
ghost use Rattle.ss_origin.specs.Groups.{sg_of, least_bound, spri_of};

use ss_octets::List;

/// The highest PRI of each range, in order: rising, each 0 to 191, and the last 191.
pub type Bounds = List<u8>;

/// How messages are put into groups, each of which is numbered and signed by itself: SG.
#[derive(Debug, Drop)]
pub enum Grouping {
    /// SG 0: one group of all messages, with this SPRI, 0 to 191.
    One { spri: u8 },
    /// SG 1: a group for each PRI, which is its SPRI.
    ByPri,
    /// SG 2: a group for each range of PRI. A message's is that of the least bound that isn't below its PRI, which is
    /// its SPRI.
    Ranges(Bounds),
}

/// The least of rising bounds that isn't below a PRI; the last is 191.
fn least_bound(pri: u8, bounds: &[u8]) -> u8
    ensures { result ≡ least_bound pri bounds.now }
{
    for bound in bounds {
        if pri <= *bound {
            return *bound;
        }
    }
    191
}

impl Grouping {
    /// The signature group type, 0 to 2: SG of the blocks (RFC 5848, section 4.2.3).
    pub fn sg(&self) -> u8
        ensures { result ≡ sg_of self.now }
    {
        match self {
            Grouping::One { spri: _ } => 0,
            Grouping::ByPri => 1,
            Grouping::Ranges(_) => 2,
        }
    }

    /// The SPRI of the group of a PRI of 0 to 191.
    pub fn spri(&self, pri: u8) -> u8
        ensures { result ≡ spri_of self.now pri }
    {
        match self {
            Grouping::One { spri } => *spri,
            Grouping::ByPri => pri,
            Grouping::Ranges(bounds) => least_bound(pri, bounds.as_slice()),
        }
    }
}
