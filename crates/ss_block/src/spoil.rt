//! Why a message with a block element holds no block.

/// Causes, in the order of their numbers: of those that apply, the first is reported.
#[derive(Clone, Copy, Debug, PartialEq, Eq, PartialOrd, Ord)]
pub enum Spoil {
    /// S1: both `ssign` and `ssign-cert` stand in the message.
    BothBlocks,
    /// S2: the names of the parameters aren't the block's nine, in their order.
    Names,
    /// S3: VER is neither `0111` nor `0121`.
    Version,
    /// S4: a number isn't in its one decimal form, or is out of its range.
    Number,
    /// S5: HB, cut at each SP, hasn't CNT pieces.
    HashCount,
    /// S6: a piece of HB isn't the strict base64 of a hash of VER's length.
    Hash,
    /// S7: SIGN isn't strict base64 of at least one octet.
    Sign,
    /// S8: the fragment ends after the payload's TPBL octets, or hasn't FLEN octets.
    Fragment,
    /// S9: the number of the last message of the block is over 9,999,999,999.
    LastNumber,
}
