//! A reader that reports on a terminal how many messages it has given.
ghost use Rattle.std.specs.Prelude.{◌≡◌, ◌||◌, false, is_err};
ghost use Rattle.std.specs.Io.{ReadsAtMost};
ghost use Rattle.std.specs.Io.KnownBytes.{ReadConsumes};
ghost use Rattle.ssign.specs.Progress.{has_failed_reading, read_from};

use crate::message_count::MessageCount;
use crate::refusing::Screen;
use ss_frame::{Form, Watched};
use std::io;
use std::io::Read;
use std::rt::Clock;
use std::time::{Duration, Instant};

/// How long a run is silent at first, in milliseconds.
const SILENCE: u64 = 1_000;
/// How long a line stands at least, in milliseconds.
const PAUSE: u64 = 250;

/// A reader that passes each call on. After one second it reports on a terminal how many messages it has given.
#[derive(Drop)]
pub struct Progress<R, I> {
    rt: R,
    inner: Watched<I>,
    meter: Option<Meter>,
}

/// How many messages were given since the start, and when that is reported next.
#[derive(Clone, Copy)]
struct Meter {
    start: Instant,
    count: MessageCount,
    /// In milliseconds from the start.
    next: u64,
    is_shown: bool,
}

impl<R: Eprint + Screen + Clock + Drop, I> Progress<R, I> {
    /// A reader of a log in this form, of which nothing was read. It is silent where no person looks, or the clock
    /// can't be read.
    pub fn new(rt: R, inner: I, form: Form) -> Progress<R, I>
        ensures inner { read_from result ≡ inner }
        ensures failed { has_failed_reading result ≡ false }
    {
        let meter = if rt.shows_refusals() {
            Meter::start(&rt, form)
        } else {
            None
        };
        Progress {
            rt,
            inner: Watched::new(inner),
            meter,
        }
    }

    /// Clears the line, where there is one, and gives back the reader after it.
    pub fn finish(self) -> I
        ensures { result ≡ read_from self }
    {
        let Progress { rt, inner, meter } = self;
        if let Some(mut meter) = meter {
            meter.hide(&rt);
        }
        inner.into_inner()
    }
}

impl Meter {
    /// A meter that has counted nothing. `None` if the clock can't be read.
    fn start<R: Clock>(rt: &R, form: Form) -> Option<Meter> {
        let start = Instant::now(rt).ok()?;
        Some(Meter {
            start,
            count: MessageCount::new(form),
            next: SILENCE,
            is_shown: false,
        })
    }

    /// Counts what was given. The end of the input, or a read that failed, gives nothing.
    fn take<R: Eprint + Clock>(&mut self, rt: &R, octets: &[u8]) {
        if octets.is_empty() {
            self.hide(rt);
            return;
        }
        self.count.add(octets);
        let Ok(elapsed) = self.start.elapsed(rt) else {
            return;
        };
        let millis = in_millis(elapsed);
        if millis >= self.next {
            self.show(rt, millis);
            self.next = millis.saturating_add(PAUSE);
        }
    }

    /// Writes the line over.
    fn show<R: Eprint>(&mut self, rt: &R, millis: u64) {
        let messages = self.count.messages();
        let rate = messages.saturating_mul(1_000) / millis.max(1);
        let _ = eprint!(rt; "\rssign: {messages} messages read, {rate} a second\u{1b}[K");
        self.is_shown = true;
    }

    /// Clears the line, where there is one.
    fn hide<R: Eprint>(&mut self, rt: &R) {
        if self.is_shown {
            let _ = eprint!(rt; "\r\u{1b}[K");
            self.is_shown = false;
        }
    }
}

/// A duration in whole milliseconds, or the greatest number if it is longer.
fn in_millis(duration: Duration) -> u64 {
    duration
        .as_secs()
        .saturating_mul(1_000)
        .saturating_add(duration.subsec_millis() as u64)
}

impl<R: Eprint + Clock, I: Read> Read for Progress<R, I> {
    ghost remaining = { λ p. I.remaining (read_from p) };

    fn read(&mut self, buf: &mut [u8]) -> io::Result<usize>
        ensures bound { ReadsAtMost result buf.new }
        // It fails where a read of the reader after it has failed, in this call, and nowhere else.
        ensures failed { has_failed_reading self.new ≡ (has_failed_reading self.old || is_err result) }
        ensures bytes { ReadConsumes (I.remaining (read_from self.old)) (I.remaining (read_from self.new)) result
            buf.new }
    {
        let result = self.inner.read(buf);
        let count = match &result {
            Ok(count) => *count,
            Err(_) => 0,
        };
        if let Some(meter) = &mut self.meter {
            meter.take(&self.rt, &buf[..count]);
        }
        result
    }
}
