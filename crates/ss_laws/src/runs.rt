//! Laws on what runs ask their sealer to sign, whatever came of them (RFC 5848, sections 4.2.4 and 4.2.5).
//!
//! Places are counted, so a block that is signed twice is excluded too. Neither proved nor tested is that the key signs
//! nothing outside of runs, and that counters are saved before a run.
ghost use Rattle.ss_laws.specs.runs.OnceAhead.{RunsAheadSignOnce};
ghost use Rattle.ss_laws.specs.runs.SignedOnce.{RunsSignOnce};

pub mod cases;

use ss_message::laws::faults_are_of_no_message;
use ss_origin::Seals;

/// A run that made its originator has no number of a group and no GBC signed twice, whether it succeeds or not. No two of
/// the blocks whose octets its sealer was asked to sign have a hash for one number of a group, or one GBC. Those that were
/// signed and never sent are among them.
pub fn runs_sign_once<J: Seals>()
    ensures { RunsSignOnce J.answers J.asked }
{
    faults_are_of_no_message();
}

/// Nor have runs that follow one another, whatever came of each, if each begins past all that the one before may have had
/// signed.
pub fn runs_ahead_sign_once<J: Seals>()
    ensures { RunsAheadSignOnce J.answers J.asked }
{
    faults_are_of_no_message();
}
