//! Laws on signed files of which each names the one before by its SHA-256. The newest file has to be known: without it the
//! files before are a chain too.
ghost use Rattle.ss_laws.specs.files.ChainLaws.{ChainsAreOne, FilesBeforeAreOne, LinksAreOne, NothingIsMissing};

pub mod cases;

use ss_frame::laws::readings::one_reading;
use ss_review::laws::pinned::pinned_reports_are_of_logs;
use ss_review::laws::reports::reports_list_what_is_announced;

/// A file has one link at most: what a review lists as its message number 1 is a matter of its octets.
pub fn links_are_one()
    ensures { LinksAreOne }
{
    one_reading();
    reports_list_what_is_announced();
    pinned_reports_are_of_logs();
}

/// If the newest files of two chains have one link, the files before them are the same, one by one, up to the end of the
/// shorter chain; or two different ones at one place have one SHA-256.
pub fn files_before_are_one()
    ensures { FilesBeforeAreOne }
{
    links_are_one();
}

/// If the newest files of two chains have one SHA-256, the chains are the same, file by file, up to the end of the
/// shorter one; or two different files at one place have one SHA-256.
pub fn chains_are_one()
    ensures { ChainsAreOne }
{
    links_are_one();
}

/// If the files of a folder are a chain that goes back to a first file, and its newest file has the SHA-256 of the newest
/// one that was signed, the folder has each file that was signed, octet for octet; or two different files have one
/// SHA-256.
pub fn nothing_is_missing()
    ensures { NothingIsMissing }
{
    chains_are_one();
}
