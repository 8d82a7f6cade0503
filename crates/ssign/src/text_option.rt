//! The options whose value is a text of its own form.
ghost use Rattle.std.specs.Prelude.{◌≡◌, option_map};
ghost use Rattle.clap.specs.Words.{first_value, found_of};
ghost use Rattle.ssign.specs.Settings.{option_name};

use crate::options::{APP, GROUPS, HOST, MSGID, PAYLOAD, PROCID, STAMP};
use clap::ArgMatches;

/// An option of a command that signs, whose value is a text of its own form.
#[derive(Clone, Copy, Debug, PartialEq, Eq)]
pub enum TextOption {
    /// `--payload`, the payload block.
    Payload,
    /// `--stamp`, TIMESTAMP.
    Stamp,
    /// `--groups`.
    Groups,
    /// `--host`, HOSTNAME.
    Host,
    /// `--app`, APP-NAME.
    App,
    /// `--procid`, PROCID.
    Procid,
    /// `--msgid`, MSGID.
    Msgid,
}

impl TextOption {
    /// The name of the option, without its two hyphens.
    pub fn name(self) -> &'static str
        ensures { result.now ≡ option_name self }
    {
        match self {
            TextOption::Payload => PAYLOAD.name,
            TextOption::Stamp => STAMP.name,
            TextOption::Groups => GROUPS.name,
            TextOption::Host => HOST.name,
            TextOption::App => APP.name,
            TextOption::Procid => PROCID.name,
            TextOption::Msgid => MSGID.name,
        }
    }

    /// The value of the option, if it has one.
    pub fn value_in<'a>(self, matches: &ArgMatches<'a>) -> Option<&'a str>
        ensures { option_map (λ s. s.now) result ≡ first_value (found_of matches.now) (option_name self) }
    {
        matches.get_str(self.name())
    }
}
