//! Laws on what is written about any log.
ghost use Rattle.ss_report.specs.VerdictLaws.{VerdictsAreOfReports};
ghost use Rattle.ss_report.specs.runs.CounterLaws.{CountersAreTheLogs};
ghost use Rattle.ss_report.specs.texts.FactLaws.{MarksAreFound};
ghost use Rattle.ss_report.specs.texts.OnceLaws.{QuestionsOnceAskTheSame};

/// In plain notation, the counters of a log are written as the lines of the counters that the log itself gives. Each
/// joined session has the line of its signature blocks, and then a line for each of its groups.
pub fn counters_are_the_logs()
    ensures { CountersAreTheLogs }
{}

/// A verdict is clean exactly where the report is and the log has a clean end. If a review reports what is missing, its
/// verdict is clean exactly where nothing is missing either.
pub fn verdicts_are_of_reports()
    ensures { VerdictsAreOfReports }
{}

/// Each payload is written once, under the next index, before the first question about it. Whoever reads the lines and
/// puts the payload in place of each index has the questions themselves, in their order.
pub fn questions_once_ask_the_same()
    ensures { QuestionsOnceAskTheSame }
{}

/// The line of a message is marked exactly where `[ssign` stands in the message.
pub fn marks_are_found()
    ensures { MarksAreFound }
{}
