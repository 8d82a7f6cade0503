//! A reader that keeps the first octets that it gives.
ghost use Rattle.std.specs.Prelude.{◌≡◌, ◌++◌, ◌||◌, [], false, is_err, take, MatchResult};
ghost use Rattle.std.specs.Io.{ReadsAtMost};
ghost use Rattle.std.specs.Io.KnownBytes.{ReadConsumes};

use arrayvec::ArrayVec;
use ss_frame::Watched;
use std::io;
use std::io::Read;

/// How many octets are kept: as many as the longest mark that they are compared with has.
const KEPT: usize = 6;

/// A reader that passes each call on, and keeps the first six octets of all that it gives.
#[derive(Drop)]
pub struct FirstOctets<R> {
    inner: Watched<R>,
    kept: ArrayVec<u8, KEPT>,
}

impl<R> FirstOctets<R> {
    ghost use Rattle.ssign.specs.FirstOctets.{inside, has_failed_inside, kept_octets};

    /// A reader of which nothing was read.
    pub fn new(inner: R) -> FirstOctets<R>
        ensures inner { inside result ≡ inner }
        ensures failed { has_failed_inside result ≡ false }
        ensures kept { kept_octets result ≡ [] }
    {
        FirstOctets {
            inner: Watched::new(inner),
            kept: ArrayVec::new(),
        }
    }

    /// The first octets that were read, as far as they were read.
    pub fn kept(&self) -> &[u8]
        ensures { result.now ≡ kept_octets self.now }
    {
        self.kept.as_slice()
    }
}

/// Keeps as many octets as there is room for.
fn keep(kept: &mut ArrayVec<u8, KEPT>, octets: &[u8])
    ensures { kept.new.items ≡ take 6 (kept.old.items ++ octets.now) }
{
    let count = (KEPT - kept.len()).min(octets.len());
    let _ = kept.try_extend_from_slice(&octets[..count]);
}

impl<R: Read> Read for FirstOctets<R> {
    ghost use Rattle.ssign.specs.FirstOctets.{inside, has_failed_inside, kept_octets};

    ghost remaining = { λ o. R.remaining (inside o) };

    fn read(&mut self, buf: &mut [u8]) -> io::Result<usize>
        ensures bound { ReadsAtMost result buf.new }
        // It fails where a read of the reader in it has failed, in this call, and nowhere else.
        ensures failed { has_failed_inside self.new ≡ (has_failed_inside self.old || is_err result) }
        ensures bytes { ReadConsumes (R.remaining (inside self.old)) (R.remaining (inside self.new)) result buf.new }
        ensures kept { MatchResult result (λ count.
            kept_octets self.new ≡ take 6 (kept_octets self.old ++ take count buf.new))
            (λ _. kept_octets self.new ≡ kept_octets self.old) }
    {
        let count = self.inner.read(buf)?;
        keep(&mut self.kept, &buf[..count]);
        Ok(count)
    }
}
