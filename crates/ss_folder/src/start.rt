//! What is supposed of a folder as it is opened.
ghost use Rattle.std.specs.Prelude.{⊤};
ghost use Rattle.ss_journal.specs.Disk.{Image};

/// The files that may be left in a folder as it is opened. A function over `S: Start` is proved for all of them, which no
/// code can read.
pub trait Start: Drop {
    ghost opened: { Image → Type 0 };
}

/// Anything may be left. For `main` to name.
#[derive(Drop)]
pub struct Unknown;

impl Start for Unknown {
    ghost opened = { λ _. ⊤ };
}
