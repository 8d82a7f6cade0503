//! The records of a file, torn or not.
ghost use Rattle.ss_journal.specs.RecordLaws.{RecordsAreFrames, FramesAreRecords, FrontsAreRecords};

/// A file is the frames of its records, and a torn end at whose front no record stands.
pub fn records_are_frames()
    ensures { RecordsAreFrames }
{}

/// Records are read from their frames, whatever follows these.
pub fn frames_are_records()
    ensures { FramesAreRecords }
{}

/// Of frames that are torn anywhere, also in a record, a front of the records is left, whatever a hole has after them.
pub fn fronts_are_records()
    ensures { FrontsAreRecords }
{}
