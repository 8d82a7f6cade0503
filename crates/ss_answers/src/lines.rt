//! The lines of a file of answers.
ghost use Rattle.std.specs.Prelude.{[]};
ghost use Rattle.ss_answers.specs.LinesSoFar.{IsSound, text_of};

use crate::cut::cut_ended_line;
use crate::fault::AnswerFault;
use crate::field::{LineFault, Span};
use crate::line::{self, Known};
use crate::place::Place;
use crate::room::emptied;
use std::alloc::Global;
use std::collections::BTreeMap;
use std::mem;

/// Lines by the places of their fields among the octets of all of them.
#[derive(Debug, Drop)]
pub struct Lines {
    /// The fields of all lines, one after the other. A payload stands once for the lines that follow one another with
    /// it.
    pub octets: Vec<u8>,
    /// For each line, where its fields stand.
    pub places: Vec<Place>,
}

/// The lines of a text that is taken part by part, each ended by a line feed that may be missing at the last. No more
/// of the text is held than what stands after its last line feed, and the payloads that are known.
#[derive(Debug, Drop)]
pub struct LinesSoFar {
    /// Those that have ended.
    ended: Lines,
    /// The payload of the line before.
    last: Option<Known>,
    /// The payloads of the lines `yes`.
    payloads: BTreeMap<Vec<u8>, Span>,
    /// What stands after the last line feed.
    unfinished: Vec<u8>,
}

impl LinesSoFar {
    ghost use Rattle.std.specs.Prelude.{◌≡◌, ◌+◌, ◌++◌, ◌∷◌, ◌<◌, ◌^◌, length, IfOk, IfErr, OnOk};
    ghost use Rattle.ss_octets.specs.Ascii.{lf};
    ghost use Rattle.ss_answers.specs.Answers.{HasLines};
    ghost use Rattle.ss_answers.specs.AnswerInput.{IsTextFault};
    ghost use Rattle.ss_answers.specs.AnswerLine.{AreWithin, answers_of};
    ghost use Rattle.ss_answers.specs.Lines.{Lacks};
    ghost use Rattle.ss_answers.specs.LinesSoFar.{AddsLine, HoldsPayloads, IsLineFault, IsPartFault};

    /// Those of no text.
    pub fn new(alloc: Global) -> LinesSoFar
        ensures sound { IsSound result }
        ensures none { text_of result ≡ [] }
    {
        LinesSoFar {
            ended: Lines {
                octets: Vec::new(alloc),
                places: Vec::new(alloc),
            },
            last: None,
            payloads: BTreeMap::new(alloc),
            unfinished: Vec::new(alloc),
        }
    }

    /// Takes the next part of the text.
    ///
    /// # Errors
    ///
    /// `BadLine` with the number, from 1, of the first line that isn't an answer, among those that have ended;
    /// `Memory`.
    pub fn take(&mut self, alloc: Global, part: &[u8]) -> Result<(), AnswerFault>
        requires sound { IsSound self.old }
        requires room { length (text_of self.old) + length part.now < 2 ^ 32 }
        ensures sound { OnOk result (IsSound self.new) }
        ensures taken { OnOk result (text_of self.new ≡ text_of self.old ++ part.now) }
        ensures err { IfErr result (λ fault. IsPartFault (text_of self.old ++ part.now) fault) }
    {
        let mut rest = part;
        while let Some((end, after)) = cut_ended_line(rest) {
            self.end_line(alloc, end)?;
            rest = after;
        }
        self.go_on(rest)
    }

    /// The lines of the text, which ends here.
    ///
    /// # Errors
    ///
    /// `BadLine` with the number, from 1, of the last line, if it isn't an answer; `Memory`.
    pub fn finish(mut self, alloc: Global) -> Result<Lines, AnswerFault>
        requires sound { IsSound self }
        requires room { length (text_of self) < 2 ^ 32 }
        ensures ok { IfOk result (λ lines. HasLines (text_of self) (answers_of lines)) }
        ensures err { IfErr result (λ fault. IsTextFault (text_of self) fault) }
    {
        if !self.unfinished.is_empty() {
            let line = mem::replace(&mut self.unfinished, Vec::new(alloc));
            self.keep(alloc, &line)?;
        }
        Ok(self.ended)
    }

    /// Ends the unfinished line: this stands before its line feed.
    fn end_line(&mut self, alloc: Global, end: &[u8]) -> Result<(), AnswerFault>
        requires sound { IsSound self.old }
        requires lacks { Lacks lf end.now }
        requires room { length (text_of self.old) + length end.now + 1 < 2 ^ 32 }
        ensures sound { OnOk result (IsSound self.new) }
        ensures taken { OnOk result (text_of self.new ≡ text_of self.old ++ (end.now ++ lf ∷ [])) }
        ensures err { IfErr result (λ fault. IsPartFault (text_of self.old ++ (end.now ++ lf ∷ [])) fault) }
    {
        if self.unfinished.is_empty() {
            return self.keep(alloc, end);
        }
        self.go_on(end)?;
        let line = mem::replace(&mut self.unfinished, Vec::new(alloc));
        self.keep(alloc, &line)?;
        self.unfinished = emptied(alloc, line);
        Ok(())
    }

    /// Goes on with the unfinished line.
    fn go_on(&mut self, text: &[u8]) -> Result<(), AnswerFault>
        requires sound { IsSound self.old }
        requires lacks { Lacks lf text.now }
        ensures sound { OnOk result (IsSound self.new) }
        ensures taken { OnOk result (text_of self.new ≡ text_of self.old ++ text.now) }
        ensures err { IfErr result (λ fault. fault ≡ AnswerFault.Memory) }
    {
        match self.unfinished.extend_from_slice(text) {
            Ok(()) => Ok(()),
            Err(_) => Err(AnswerFault::Memory),
        }
    }

    /// Keeps a line, which is given without its line feed.
    fn keep(&mut self, alloc: Global, text: &[u8]) -> Result<(), AnswerFault>
        requires room { length self.old.ended.octets.items + length text.now < 2 ^ 32 }
        requires places { length self.old.ended.places.items + 1 < 2 ^ 32 }
        requires within { AreWithin self.old.ended }
        requires holds { HoldsPayloads self.old }
        ensures unfinished { self.new.unfinished ≡ self.old.unfinished }
        ensures adds { OnOk result (AddsLine self.old.ended self.new.ended text.now) }
        ensures holds { OnOk result (HoldsPayloads self.new) }
        ensures err { IfErr result (λ fault. IsLineFault (length self.old.ended.places.items) text.now fault) }
    {
        let last = self.last.take();
        let kept = line::keep(
            alloc,
            &mut self.ended.octets,
            text,
            last,
            &mut self.payloads,
        );
        match kept {
            Ok((place, payload)) => {
                self.last = payload;
                match self.ended.places.push(place) {
                    Ok(()) => Ok(()),
                    Err(_) => Err(AnswerFault::Memory),
                }
            }
            Err(LineFault::Bad) => Err(AnswerFault::BadLine {
                line: self.ended.places.len() as u32 + 1,
            }),
            Err(LineFault::Memory) => Err(AnswerFault::Memory),
        }
    }
}
