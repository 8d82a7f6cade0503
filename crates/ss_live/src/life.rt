//! A whole run: it begins with the first event, and serves those that follow.
ghost use Rattle.std.specs.Prelude.{◌≡◌, List, ℕ, Option, Some, OnOk, IfOk, IsErrOf};
ghost use Rattle.std.specs.Io.KnownBytes.{Consumes};
ghost use Rattle.ss_frame.specs.Frame.{frame};
ghost use Rattle.ss_frame.specs.Output.{WritesWhole};
ghost use Rattle.ss_frame.specs.Watched.{sink_of, source_of};
ghost use Rattle.ss_live.specs.Turned.{IsTurned};
ghost use Rattle.ss_live.specs.Events.{EventValue, event_of};
ghost use Rattle.ss_live.specs.Goes.{IsReady, LeavesOn, Moves};
ghost use Rattle.ss_live.specs.Ran.{BeginsNot, HasRun, LeavesRun};
ghost use Rattle.ss_live.specs.Replies.{reply_frames};
ghost use Rattle.ss_live.specs.declared.run.LiveFault.TheVariants as faults;
ghost use Rattle.ss_live.specs.declared.turning.Turned.{Turned};

use crate::answer::Answer;
use crate::engine::Engine;
use crate::event::{Event, event_in};
use crate::run::{LiveFault, Reply, next_frame, serve_live, write_reply};
use ss_frame::Watched;
use ss_journal::Disk;
use ss_message::Stamp;
use std::alloc::Global;
use std::io::{Read, Write};

/// What the first event asks for, which has to be `b`. `First` exactly if it is none, or the input has no event.
fn first_event<R: Read>(
    alloc: Global,
    reader: &mut Watched<R>,
) -> Result<(u64, Option<Stamp>), LiveFault>
    ensures read { IfOk result (λ m. (octets : List ℕ) × (event_of octets ≡ Some (EventValue.Begin m.0 m.1))
        × Consumes (source_of R.remaining reader.old).left (source_of R.remaining reader.new).left (frame octets)) }
    ensures first { IsErrOf result faults.First
        → BeginsNot (source_of R.remaining reader.old).left (source_of R.remaining reader.new).left }
{
    let Some(octets) = next_frame(alloc, reader)? else {
        return Err(LiveFault::First);
    };
    let Some(Event::Begin(seconds, stamp)) = event_in(octets.as_slice()) else {
        return Err(LiveFault::First);
    };
    Ok((seconds, stamp))
}

/// Goes on in the next file at once if nothing waits in the one before, and answers what began.
fn answer_begun<W: Write, D: Disk>(
    alloc: Global,
    writer: &mut Watched<W>,
    engine: &mut Engine<D>,
    answer: Option<Answer>,
) -> Result<(), LiveFault>
    requires ready { IsReady D.seen D.may_leave D.is_believed D.is_named engine.old }
    ensures ready { OnOk result (IsReady D.seen D.may_leave D.is_believed D.is_named engine.new) }
    ensures answered { OnOk result ((turned : Option Turned) × IsTurned D.seen D.may_leave engine.old engine.new turned
        × WritesWhole (sink_of W.contents writer.old) (sink_of W.contents writer.new)
        (reply_frames (record { answer = answer; turned = turned }))) }
    ensures moves { OnOk result (Moves D.seen D.may_leave engine.old.journal engine.new.journal) }
    ensures any_moment { LeavesOn D.seen D.may_leave D.moment D.left_since engine.old.journal engine.new.journal }
    ensures own { IsErrOf result faults.First → ⊥ }
{
    let turned = engine.turn(alloc)?;
    write_reply(alloc, writer, &Reply { answer, turned })?;
    Ok(())
}

/// Reads the first event, which has to be `b`, begins, and answers one event after the other, to their end. Each answer is
/// written and flushed before the next event is read. `First` exactly if the first event is no `b`, or none is there: then
/// nothing was done or written. At any other `Err`, start again.
pub fn run_live<R: Read, W: Write, D: Disk>(
    alloc: Global,
    reader: &mut Watched<R>,
    writer: &mut Watched<W>,
    engine: &mut Engine<D>,
) -> Result<(), LiveFault>
    ensures ready { OnOk result (IsReady D.seen D.may_leave D.is_believed D.is_named engine.new) }
    // What was read, what was done for it, and what was written.
    ensures ran { OnOk result (HasRun D.seen D.may_leave engine.old engine.new
        (source_of R.remaining reader.old).left (source_of R.remaining reader.new).left
        (sink_of W.contents writer.old) (sink_of W.contents writer.new)) }
    ensures refused { IsErrOf result faults.First
        → BeginsNot (source_of R.remaining reader.old).left (source_of R.remaining reader.new).left
        × (writer.new ≡ writer.old) × (engine.new ≡ engine.old) }
    // However it ends, whatever a crash leaves at any moment of the run, the machine may reach.
    ensures any_moment { LeavesRun D.seen D.may_leave D.moment D.left_since engine.old.journal engine.new.journal }
{
    let (seconds, stamp) = first_event(alloc, reader)?;
    let answer = engine.begin(alloc, seconds, stamp)?;
    answer_begun(alloc, writer, engine, answer)?;
    serve_live(alloc, reader, writer, engine)?;
    Ok(())
}
