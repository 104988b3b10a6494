//! A reading of lines, which gives the events that they tell, one after the other.

ghost use Rattle.std.specs.Prelude.{◌≡◌, ◌≢◌, ◌+◌, Some, ◌==◌, ◌∷◌, ◌++◌, [], List, Option, false, true, None, IfErr, IfOk, IfSome, IsTrue, OnOk, length, ℕ};
ghost use Rattle.chi_events.specs.declared.event.Event.{Event};
ghost use Rattle.chi_watch_text.specs.LineTold.{line_told, time_stated};
ghost use Rattle.chi_watch_text.specs.Lines.{is_blank};
ghost use Rattle.chi_watch_text.specs.Reading.{BeginsWith, FailsNext, GivesNext, HasGivenOf, RefusesBy, TakesBy};

use crate::awaited_data::{AwaitedData, told_by_effect};
use crate::fault::LinesFault;
use crate::line_format::{LineFormat, effect_of};
use crate::line_stated::time_stated;
use crate::line_told::line_told;
use crate::lines::{is_at_end, is_blank, next_line};
use chi_events::Event;
use chi_json::Scratch;
use chi_points::PointedPort;
use std::alloc::{AllocError, Global};
use std::io::BufRead;

/// A reading of lines: what it follows of the flits that they state, and of the requests that errors may drop; the last line, and how
/// many lines were read; the events of the last line that are not given yet; the lines that were read for the event that was
/// given last, one after the other; and the memory by which usual lines are read.
pub(crate) struct Reading {
    pub format: LineFormat,
    pub port: PointedPort,
    pub awaited: AwaitedData,
    pub line: Vec<u8>,
    pub number: u64,
    pub pending: Vec<Event>,
    pub lines: Vec<u8>,
    pub scratch: Scratch,
}

// By one call, so that the proof of what reads has one step for it where it ends.
impl Drop for Reading {
    fn drop(self) {
        let Reading {
            format: _,
            port: _port,
            awaited: _awaited,
            line: _line,
            number: _,
            pending: _pending,
            lines: _lines,
            scratch: _scratch,
        } = self;
    }
}

impl Reading {
    /// A reading of which no line was read.
    pub(crate) fn new(alloc: Global, format: LineFormat) -> Reading
        ensures given { (start : Option (List ℕ)) → HasGivenOf start [] result start }
        ensures format { result.format ≡ format }
        ensures pending { result.pending.items ≡ [] }
    {
        Reading {
            format,
            port: PointedPort::new(alloc),
            awaited: AwaitedData::new(alloc),
            line: Vec::new(alloc),
            number: 0,
            pending: Vec::new(alloc),
            lines: Vec::new(alloc),
            scratch: Scratch::new(alloc),
        }
    }

    /// Whether the events of each line that was read are given.
    pub(crate) fn is_whole(&self) -> bool
        ensures { result ≡ (length self.now.pending.items == 0) }
    {
        self.pending.is_empty()
    }

    /// Gives the next event of the last line.
    fn give(&mut self) -> Option<Event>
        ensures given { IfSome result (λ e. self.old.pending.items ≡ e ∷ self.new.pending.items) }
        ensures none { result ≡ None → self.old.pending.items ≡ [] }
        ensures unchanged { result ≡ None → self.new ≡ self.old }
        ensures others { (self.new.format ≡ self.old.format) × (self.new.port ≡ self.old.port) × (self.new.awaited ≡ self.old.awaited) × (self.new.number ≡ self.old.number) × (self.new.lines ≡ self.old.lines) }
    {
        if self.pending.is_empty() {
            return None;
        }
        Some(self.pending.remove(0))
    }

    /// Takes the line that was read, which has this number.
    fn take_line(&mut self, alloc: Global, number: u64) -> Result<(), LinesFault>
        ensures told { IfOk result (λ _. TakesBy self.old.format number self.old.line.items self.old.port self.old.awaited self.new.pending.items self.new.port self.new.awaited) }
        ensures fault { IfErr result (RefusesBy (λ seen. line_told self.old.format seen number self.old.line.items) self.old.port number) }
        ensures number { IfOk result (λ _. self.new.number ≡ number) }
        ensures lines { IfOk result (λ _. self.new.lines.items ≡ self.old.lines.items ++ self.old.line.items) }
        ensures line { self.new.line.items ≡ self.old.line.items }
        ensures refused { IfErr result (λ fault. fault ≢ LinesFault.Memory → self.new.number ≡ self.old.number) }
        ensures failed { IfErr result (λ fault. fault ≢ LinesFault.Memory → self.new.port ≡ self.old.port) }
        ensures format { self.new.format ≡ self.old.format }
    {
        let events = line_told(
            alloc,
            &mut self.scratch,
            self.format,
            &mut self.port,
            &self.line,
            number,
        )?;
        let effect = effect_of(self.format);
        self.pending = told_by_effect(alloc, effect, &mut self.awaited, events)?;
        self.number = number;
        self.lines.extend_from_slice(&self.line)?;
        Ok(())
    }

    /// The time of the flit that the line states which was read last and refused, if it states one.
    pub(crate) fn refused_time(&self, alloc: Global) -> Result<Option<u64>, AllocError>
        ensures { IfOk result (λ time. IfSome time (λ t. time_stated self.now.format (self.now.number + 1) self.now.line.items ≡ Some t)) }
    {
        match self.number.checked_add(1) {
            Some(number) => time_stated(alloc, self.format, &self.line, number),
            None => Ok(None),
        }
    }

    /// Reads the next line, whose events are given next. There is none at the end, nor where only blank lines follow.
    fn read_line<R: BufRead>(&mut self, alloc: Global, from: &mut R) -> Result<bool, LinesFault>
        requires { self.old.pending.items ≡ [] }
        ensures read { IfOk result (λ more. IsTrue more → (start : Option (List ℕ)) (events : List Event) → HasGivenOf start events self.old (R.remaining from.old) → HasGivenOf start events self.new (R.remaining from.new)) }
        ensures lines { IfOk result (λ more. IsTrue more → (begin : Option (List ℕ)) → BeginsWith begin self.old.lines.items (R.remaining from.old) → BeginsWith begin self.new.lines.items (R.remaining from.new)) }
        ensures ended { IfOk result (λ more. more ≡ false → IfSome (R.remaining from.old) (λ text. is_blank text ≡ true)) }
        ensures same { IfOk result (λ more. more ≡ false → (self.new.port ≡ self.old.port) × (self.new.number ≡ self.old.number)) }
        ensures fault { IfErr result (λ fault. (start : Option (List ℕ)) → FailsNext start self.old (R.remaining from.old) self.new fault) }
        ensures format { self.new.format ≡ self.old.format }
    {
        let Some(number) = self.number.checked_add(1) else {
            return Err(LinesFault::TooManyLines);
        };
        next_line(from, &mut self.line)?;
        if self.line.is_empty() {
            return Ok(false);
        }
        let fault = match self.take_line(alloc, number) {
            Ok(()) => return Ok(true),
            Err(LinesFault::Memory) => return Err(LinesFault::Memory),
            Err(fault) => fault,
        };
        if !is_blank(&self.line) {
            return Err(fault);
        }
        if is_at_end(from, &mut self.lines)? {
            return Ok(false);
        }
        Err(fault)
    }

    /// Gives the next event. There is none once the lines have ended.
    pub(crate) fn next_event<R: BufRead>(
        &mut self,
        alloc: Global,
        from: &mut R,
    ) -> Result<Option<Event>, LinesFault>
        ensures gives { IfOk result (λ next. (start : Option (List ℕ)) → GivesNext start self.old (R.remaining from.old) next self.new (R.remaining from.new)) }
        ensures lines { IfOk result (λ next. IfSome next (λ e. BeginsWith (R.remaining from.old) self.new.lines.items (R.remaining from.new))) }
        ensures whole { IfOk result (λ next. next ≡ None → self.old.pending.items ≡ []) }
        ensures fault { IfErr result (λ fault. (start : Option (List ℕ)) → FailsNext start self.old (R.remaining from.old) self.new fault) }
        ensures format { self.new.format ≡ self.old.format }
    {
        self.lines.clear();
        for _ in 0..u64::MAX {
            if let Some(event) = self.give() {
                return Ok(Some(event));
            }
            if !self.read_line(alloc, from)? {
                return Ok(None);
            }
        }
        Err(LinesFault::TooManyLines)
    }
}
