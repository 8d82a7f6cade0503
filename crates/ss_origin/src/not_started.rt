//! That no originator was made.
ghost use Rattle.std.specs.Prelude.{◌≡◌};

use crate::fault::OriginFault;
use crate::sealer::Seals;

/// Why no originator was made, and the sealer that was meant for it.
#[derive(Drop)]
pub struct NotStarted<J: Seals> {
    /// `BadConfig` or `Memory`.
    pub fault: OriginFault,
    /// The sealer, as it was given. It was asked nothing.
    pub sealer: J,
}

impl<J: Seals> From<NotStarted<J>> for OriginFault {
    ghost from_gives = { λ n e. e ≡ n.fault };

    fn from(n: NotStarted<J>) -> OriginFault {
        n.fault
    }
}
