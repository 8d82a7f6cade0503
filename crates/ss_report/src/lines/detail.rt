//! What a report lists, and what it takes for a finding besides.
ghost use Rattle.std.specs.Prelude.{◌≡◌};
ghost use Rattle.ss_report.specs.lines.Lines.{alone, itemizing};

/// Whether a report lists each item, counts them, or does both in brief.
#[derive(Clone, Copy, Debug, PartialEq, Eq)]
pub enum Listing {
    /// A line for each number or hole of a group, and one for each unlisted, refused or spoilt message.
    Itemized,
    /// One line for each group, with its counts, and one for each list of messages, with its length.
    Tally,
    /// The lines of the items, and after those of a group one with its counts. Of the lines of listed messages only those
    /// stand there whose entry comes right before or after one that isn't listed, and that of a last entry.
    Brief,
}

/// What a report lists, and what it takes for a finding besides.
#[derive(Clone, Copy, Debug, PartialEq, Eq)]
pub struct Detail {
    /// Whether each item is listed, counted, or both in brief.
    pub listing: Listing,
    /// Whether there is a finding for each group whose listed messages don't stand in the order of their numbers.
    pub in_order: bool,
    /// Whether there is a finding where the log has no message.
    pub not_empty: bool,
    /// Whether there is a finding where no message is listed.
    pub some_listed: bool,
    /// Whether there is a finding where a verified signature block has hashes by SHA-1 (VER 0111; RFC 5848, section
    /// 4.2.1).
    pub no_sha1: bool,
    /// Whether refused blocks are no finding, and there is one for each that isn't to be ignored: it may be the last
    /// signature block of its signer, changed, or it claims a session that isn't joined.
    pub ignore_strangers: bool,
    /// Whether there is a line for each block of the log, verified or not. It is no finding.
    pub blocks: bool,
}

impl Detail {
    /// This listing, and no finding besides.
    pub fn of(listing: Listing) -> Detail
        ensures { result ≡ alone listing }
    {
        Detail {
            listing,
            in_order: false,
            not_empty: false,
            some_listed: false,
            no_sha1: false,
            ignore_strangers: false,
            blocks: false,
        }
    }

    /// The same findings, with each item.
    pub(crate) fn itemized(self) -> Detail
        ensures { result ≡ itemizing self }
    {
        Detail {
            listing: Listing::Itemized,
            ..self
        }
    }
}
