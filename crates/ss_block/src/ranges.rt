//! How far the numbers of blocks go (RFC 5848, sections 4.2 and 5.3.2). RSID, GBC and FMN have at most ten digits.

use ss_payload::LONGEST_PAYLOAD;

/// The greatest number of ten digits.
pub const LAST_NUMBER: u64 = 9_999_999_999;

/// The number after the last, which no block can state.
pub const PAST_LAST_NUMBER: u64 = 10_000_000_000;

/// The numbers from `least` to `most`.
#[derive(Clone, Copy)]
pub struct NumberRange {
    pub least: u64,
    pub most: u64,
}

/// The numbers of RSID and GBC.
pub const FROM_0: NumberRange = NumberRange {
    least: 0,
    most: LAST_NUMBER,
};

/// The numbers of FMN.
pub const FROM_1: NumberRange = NumberRange {
    least: 1,
    most: LAST_NUMBER,
};

/// The numbers of SG.
pub const SG: NumberRange = NumberRange { least: 0, most: 3 };

/// The numbers of SPRI.
pub const SPRI: NumberRange = NumberRange {
    least: 0,
    most: 191,
};

/// The numbers of CNT.
pub const CNT: NumberRange = NumberRange { least: 1, most: 99 };

/// The numbers of TPBL and INDEX.
pub const PAYLOAD: NumberRange = NumberRange {
    least: 1,
    most: LONGEST_PAYLOAD as u64,
};

/// The numbers of FLEN.
pub const FLEN: NumberRange = NumberRange {
    least: 1,
    most: 9999,
};
