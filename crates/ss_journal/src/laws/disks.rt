//! That a disk of the trait may leave something.
ghost use Rattle.ss_journal.specs.LossyLeft.{SeenIsLeft};

/// What `Lossy` shows may be left, where each of its calls answered what was seen. So there is a disk that behaves as a disk
/// may, and of which something may be left.
pub fn seen_is_left()
    ensures { SeenIsLeft }
{}
