//! Why no block was read from an element.
use crate::spoil::Spoil;
use ss_octets::NoMemory;

/// Why no block was read.
#[derive(Clone, Copy)]
pub enum Refusal {
    /// The element holds none.
    Spoilt(Spoil),
    /// Memory ran out.
    Memory,
}

impl From<Spoil> for Refusal {
    ghost use Rattle.std.specs.Prelude.{◌≡◌};
    ghost use Rattle.ss_block.specs.declared.refusal.Refusal.TheVariants.{Spoilt};

    ghost from_gives = { λ cause e. e ≡ Spoilt cause };

    fn from(cause: Spoil) -> Refusal {
        Refusal::Spoilt(cause)
    }
}

impl From<NoMemory> for Refusal {
    ghost use Rattle.std.specs.Prelude.{◌≡◌};
    ghost use Rattle.ss_block.specs.declared.refusal.Refusal.TheVariants.{Memory};

    ghost from_gives = { λ _ e. e ≡ Memory };

    fn from(_e: NoMemory) -> Refusal {
        Refusal::Memory
    }
}
