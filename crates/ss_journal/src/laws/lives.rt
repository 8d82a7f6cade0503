//! What holds over every list of events, with a crash at any moment of any call, also in a start.
ghost use Rattle.ss_journal.specs.Counts.{NumberedFromOne, ClosedFromOne};
ghost use Rattle.ss_journal.specs.Laws.{ConfirmedStays, ClosedStays, AskedOnce, StoredFirst, AnnouncedInOrder, AllAnnounced};
ghost use Rattle.ss_journal.specs.Laws.{EachAsked, ClosedAnnounced, SomeAsked, SomeClosed};
ghost use Rattle.ss_journal.specs.LiveLaws.{FirstLife, ConfirmedIsLeft, StoredIsLeft, OrderIsLeft, ClosedIsLeft};

/// What was confirmed is in its file, in its order, on the disk, at any later time; and a closed file never changes.
pub fn confirmed_stays()
    ensures stays { ConfirmedStays }
    ensures closed { ClosedStays }
{}

/// No number of a session has two messages, in all that was ever asked for.
pub fn asked_once()
    ensures { AskedOnce }
{}

/// Each message that has a number is in its file, on the disk, from the moment on from which it may be asked for.
pub fn stored_first()
    ensures { StoredFirst }
{}

/// The blocks of each file announce the hashes of its first messages, each once, in their order, and no others; all of
/// them where the file is closed, or nothing waits.
pub fn none_missing()
    ensures order { AnnouncedInOrder }
    ensures all { AllAnnounced }
    ensures blocks { EachAsked }
    ensures closed { ClosedAnnounced }
{}

/// Where the first life begins: no file is there, and the name 0 stands for none.
pub fn first_life()
    ensures { FirstLife }
{}

/// Whatever is left at the end of any number of lives: the file that was written begins with the octets of what was
/// confirmed, and has each message that has a number; its blocks announce its first messages, each once; and the closed
/// files are there.
pub fn after_lives()
    ensures confirmed { ConfirmedIsLeft }
    ensures stored { StoredIsLeft }
    ensures order { OrderIsLeft }
    ensures closed { ClosedIsLeft }
{}

/// There are such runs: with a message that was confirmed and has a number, and with a closed file.
pub fn some_runs()
    ensures asked { SomeAsked }
    ensures closed { SomeClosed }
{}

/// A session's numbers in a file begin with 1 and have no hole: each block begins with the number after those of its session
/// before it.
pub fn numbered_from_one()
    ensures open { NumberedFromOne }
    ensures closed { ClosedFromOne }
{}
