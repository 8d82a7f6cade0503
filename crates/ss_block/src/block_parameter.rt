//! The parameters of the elements `ssign` (RFC 5848, section 4.2) and `ssign-cert` (section 5.3.2).
ghost use Rattle.std.specs.Prelude.{◌≡◌, ◌<◌};
ghost use Rattle.ss_block.specs.Parameters.{name_of, parameter_count, place_of};

/// A parameter of a block's element.
#[derive(Clone, Copy)]
pub enum BlockParameter {
    Ver,
    Rsid,
    Sg,
    Spri,
    Gbc,
    Fmn,
    Cnt,
    Hb,
    Tpbl,
    Index,
    Flen,
    Frag,
    Sign,
}

/// The parameters of `ssign`, in their order.
pub const SIGNATURE: [BlockParameter; 9] = [
    BlockParameter::Ver,
    BlockParameter::Rsid,
    BlockParameter::Sg,
    BlockParameter::Spri,
    BlockParameter::Gbc,
    BlockParameter::Fmn,
    BlockParameter::Cnt,
    BlockParameter::Hb,
    BlockParameter::Sign,
];

/// The parameters of `ssign-cert`, in their order.
pub const CERTIFICATE: [BlockParameter; 9] = [
    BlockParameter::Ver,
    BlockParameter::Rsid,
    BlockParameter::Sg,
    BlockParameter::Spri,
    BlockParameter::Tpbl,
    BlockParameter::Index,
    BlockParameter::Flen,
    BlockParameter::Frag,
    BlockParameter::Sign,
];

impl BlockParameter {
    /// Its name, as it stands in an element.
    pub fn name(self) -> &'static [u8]
        ensures { result.now ≡ name_of self }
    {
        match self {
            BlockParameter::Ver => b"VER",
            BlockParameter::Rsid => b"RSID",
            BlockParameter::Sg => b"SG",
            BlockParameter::Spri => b"SPRI",
            BlockParameter::Gbc => b"GBC",
            BlockParameter::Fmn => b"FMN",
            BlockParameter::Cnt => b"CNT",
            BlockParameter::Hb => b"HB",
            BlockParameter::Tpbl => b"TPBL",
            BlockParameter::Index => b"INDEX",
            BlockParameter::Flen => b"FLEN",
            BlockParameter::Frag => b"FRAG",
            BlockParameter::Sign => b"SIGN",
        }
    }

    /// How many parameters stand before it in its element, 0 to 8.
    pub fn place(self) -> usize
        ensures value { result ≡ place_of self }
        ensures within { result < parameter_count }
    {
        match self {
            BlockParameter::Ver => 0,
            BlockParameter::Rsid => 1,
            BlockParameter::Sg => 2,
            BlockParameter::Spri => 3,
            BlockParameter::Gbc | BlockParameter::Tpbl => 4,
            BlockParameter::Fmn | BlockParameter::Index => 5,
            BlockParameter::Cnt | BlockParameter::Flen => 6,
            BlockParameter::Hb | BlockParameter::Frag => 7,
            BlockParameter::Sign => 8,
        }
    }
}
