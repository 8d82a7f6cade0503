//! Flags and whether they are given.
ghost use Rattle.std.specs.Prelude.{◌≡◌};
ghost use Rattle.ssign.specs.CommandLine.{is_given};

use clap::ArgMatches;

/// Whether a flag is given: the matches have the text `true` for it.
pub fn is_given(matches: &ArgMatches<'_>, flag: &str) -> bool
    ensures { result ≡ is_given matches.now flag.now }
{
    matches.get_one::<bool>(flag).unwrap_or(false)
}
