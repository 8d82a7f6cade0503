//! How a signer signs, which stays the same as long as it runs.
ghost use Rattle.std.specs.Prelude.{◌≡◌, ◌↔◌, IsSome, IfSome};
ghost use Rattle.ss_live.specs.Settings.{AreSettings, settings_of};

use ss_block::LONGEST_PAYLOAD;
use ss_octets::Bytes;
use std::marker::Model;

/// How a signer signs. Contracts see the four values, which are in their ranges.
#[derive(Debug, Drop)]
pub struct Settings {
    payload: Bytes,
    count: u8,
    frag: u16,
    stem: Bytes,
}

impl Model for Settings {
    ghost use Rattle.ss_live.specs.Settings.{AreSettings, SettingsValue, settings_of};

    ghost Value = { SettingsValue };

    ghost view = { λ s. settings_of s.payload s.count s.frag s.stem };

    ghost invariant = { λ s. AreSettings (settings_of s.payload s.count s.frag s.stem) };
}

impl Settings {
    /// `payload` is the text of the payload block (RFC 5848, section 5.2). A signature block announces `count` messages at
    /// most, and a certificate block carries `frag` octets of the payload at most. `stem` stands in front of the number in
    /// the name of a file. `None` exactly where `payload` hasn't 1 to 99,999,999 octets, `count` isn't 1 to 99, or `frag`
    /// isn't 1 to 9,999. Takes no memory.
    pub fn new(payload: Bytes, count: u8, frag: u16, stem: Bytes) -> Option<Settings>
        ensures valid { IsSome result ↔ AreSettings (settings_of payload count frag stem) }
        ensures value { IfSome result (λ s. s ≡ settings_of payload count frag stem) }
    {
        let size = payload.as_slice().len();
        if size == 0 || size > LONGEST_PAYLOAD as usize {
            return None;
        }
        if count == 0 || count > 99 || frag == 0 || frag > 9_999 {
            return None;
        }
        Some(Settings {
            payload,
            count,
            frag,
            stem,
        })
    }

    /// All settings are in the ranges that `new` asks for.
    pub(crate) fn assure_in_range(&self)
        ensures { AreSettings self.now }
    {
        let _count = self.count;
    }

    /// The text of the payload block (RFC 5848, section 5.2), 1 to 99,999,999 octets.
    pub fn payload(&self) -> &[u8]
        ensures { result.now ≡ self.now.payload }
    {
        self.payload.as_slice()
    }

    /// How many messages a signature block announces at most, 1 to 99.
    pub fn count(&self) -> u8
        ensures { result ≡ self.now.count }
    {
        self.count
    }

    /// How many octets of the payload a certificate block carries at most, 1 to 9,999.
    pub fn frag(&self) -> u16
        ensures { result ≡ self.now.frag }
    {
        self.frag
    }

    /// What stands in front of the number in the name of a file.
    pub fn stem(&self) -> &[u8]
        ensures { result.now ≡ self.now.stem }
    {
        self.stem.as_slice()
    }
}
