//! The numbers of the options that say how a log is signed.
ghost use Rattle.std.specs.Prelude.{◌≤◌};

use ss_block::Alg;

/// The version and the numbers that the options give.
#[derive(Clone, Copy, Debug)]
pub struct Choices {
    pub alg: Alg,
    pub rsid: u64,
    pub pri: u8,
    pub count: u8,
    pub frag: u16,
    pub copies: u8,
    ghost pri_in_range: { pri ≤ 191 },
}
