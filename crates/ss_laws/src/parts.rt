//! Laws on a log that is cut into parts: its report, its counters and what is missing of it are put together from its
//! parts.
//!
//! Neither proved nor tested are given payloads of each part alone, and what `--from` reads.
ghost use Rattle.ss_laws.specs.parts.PartCounters.{CountersAddUp, CountersAreReadAlike, SessionCountersOfParts};
ghost use Rattle.ss_laws.specs.parts.PartLaws.{CleanWherePartsAre, NumbersOfParts, PartsAddUp, SessionReportsOfParts};
ghost use Rattle.ss_laws.specs.parts.PartLaws.{SessionsOfParts};
ghost use Rattle.ss_laws.specs.parts.PinnedParts.{ReportsByPayloadsAddUp};
ghost use Rattle.ss_laws.specs.parts.WholeParts.{CountersMayBeGiven, MissingAddsUp, NothingMissingWhereOfParts};
ghost use Rattle.ss_laws.specs.parts.WholeParts.{WholeReportsAddUp};

pub mod cases;

use ss_review::laws::pinned::pinned_reports_are_of_logs;

/// Each session of a log is one of exactly one part. There it has the state, the payload, the verified blocks and the
/// announced hashes that it has in the whole. The premise is that all blocks of a session belong to one part.
pub fn sessions_of_parts()
    ensures { SessionsOfParts }
{}

/// A number of a session of a part is assigned the message in the part that it is assigned in the whole. The premises
/// are that all blocks of a session belong to one part, and with each the messages whose hashes it announces.
pub fn numbers_of_parts()
    ensures { NumbersOfParts }
{}

/// A part reports the same of its sessions as the whole: state, groups, listed messages, gaps and holes. The
/// premises are those of `numbers_of_parts`.
pub fn session_reports_of_parts()
    ensures { SessionReportsOfParts }
{}

/// The report of a log is the reports of its parts put together: sessions, unlisted, refused and spoilt messages, and
/// the count. A part is a log of its own, and its places are given as those in the whole. The premises are those of
/// `numbers_of_parts`, and that each place belongs to one of the parts.
pub fn parts_add_up()
    ensures { PartsAddUp }
{}

/// The report of a log is clean exactly where the report of each of its parts is. The premises are the same.
pub fn clean_where_parts_are()
    ensures { CleanWherePartsAre }
{}

/// The counters that a review of a log gives are those that reviews of its parts give, put together: session by session,
/// and of each session in their order. The premises are that all blocks of a session belong to one part, and each block
/// to one of the parts.
pub fn counters_add_up()
    ensures { CountersAddUp }
{}

/// A session of a part has the counters in the part that it has in the whole. The premise is that all blocks of a
/// session belong to one part.
pub fn session_counters_of_parts()
    ensures { SessionCountersOfParts }
{}

/// Counters of the parts are read as those of the whole, in whatever order they stand, and among any others: up to both,
/// the same is missing of each log. The premises are those of `counters_add_up`.
pub fn counters_are_read_alike()
    ensures { CountersAreReadAlike }
{}

/// What is missing of a log up to counters, of messages, blocks and sessions, is what is missing of its parts put
/// together. The premises are those of `counters_add_up`, and `AreGiven`: each part is given the counters of its sessions,
/// and counters of a session without a block are given to a part, all of them to each part that has one. A part may be
/// given counters of other sessions too.
pub fn missing_adds_up()
    ensures { MissingAddsUp }
{}

/// The report of a log by payloads that are known beforehand is the reports of its parts put together, by the same
/// payloads, or without any. The premises are that all blocks of a session belong to one part, and with each verified
/// one the messages whose hashes it announces, and that each place belongs to one of the parts.
pub fn reports_by_payloads_add_up()
    ensures { ReportsByPayloadsAddUp }
{
    parts_add_up();
    pinned_reports_are_of_logs();
}

/// The report of a log and what is missing of it are those of its parts put together, by payloads that are known
/// beforehand, or without any. The premises are those of `reports_by_payloads_add_up`, and `AreGiven`, as in
/// `missing_adds_up`.
pub fn whole_reports_add_up()
    ensures { WholeReportsAddUp }
{
    reports_by_payloads_add_up();
    missing_adds_up();
}

/// Nothing is missing of a log exactly where nothing is missing of each of its parts. The premises are those of
/// `missing_adds_up`, and that no part is given a counter of a session that has its blocks in another part.
pub fn nothing_missing_where_of_parts()
    ensures { NothingMissingWhereOfParts }
{}

/// Two ways to give counters to parts that meet these premises, where there is a part: all of them to each part, and those
/// of each session to the part that has its blocks, and those of a session without a block to one part.
pub fn counters_may_be_given()
    ensures { CountersMayBeGiven }
{}
