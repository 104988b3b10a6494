//! The line that says how far a search is.

ghost use Rattle.std.specs.Prelude.{◌≡◌, ℕ, ◌+◌, ◌-◌, ◌*◌, ◌/◌, ◌^◌, ◌<◌, ◌≤◌, None, max, min};
ghost use Rattle.std.specs.Io.KnownBytes.{Keeps};
ghost use Rattle.chi_search.specs.Looks.{IsCutShort, LookedMore, Search, after_verdict, for_verdict};
ghost use Rattle.chi_check.specs.Counted.{IsCounted, IsCutAt, IsKnown};

use crate::following::{late, states_after};
use chi_search::Progress;
use chi_watch::Counts;
use chi_watch_text::WatchProgress;
use std::io::{IsTerminal, Write};
use std::time::{Clock, Duration, Instant};

// How many milliseconds go by before the line is written, and before it is written over.
const FIRST: u64 = 1000;

const NEXT: u64 = 100;

// After how many seconds the searches that follow a verdict are ended, however few states they looked at.
const LONGEST: u64 = 20;

// How many states are looked at, or events are told, between two looks at the clock; and how many that may follow a verdict.
const STATES: u64 = 4096;

const FOLLOWING: u64 = 64;

const EVENTS: u64 = 1024;

/// A line on a terminal that says how many states a search has looked at, or, once events are told, how many operations have
/// ended, of how many granules, how many requests are outstanding, and the time of the last event. It is first written where a
/// second has gone by since the program began, and then written over ten times a second. Where `to` is no terminal nothing is
/// written. Its own faults are ignored.
///
/// It also ends what follows a verdict: once as many states were looked at as that may take, or 20 seconds went by, each further one
/// counts as many, so that each search soon has spent its budget.
#[derive(Drop)]
pub struct ProgressLine<'a, C, W> {
    clock: &'a C,
    to: W,
    began: Option<Instant>,
    shown: Option<Instant>,
    states: u64,
    looks: u64,
    events: u64,
    reached: Option<(Counts, u64)>,
    begun: u64,
    may_follow: Option<u64>,
    found: Option<Instant>,
    cut_short: Option<u64>,
}

impl<'a, C: Clock, W: Write + IsTerminal> ProgressLine<'a, C, W> {
    /// A line that is not written yet. The program begins now.
    ///
    /// ```
    /// let mut progress = ProgressLine::new(&rt, rt.stderr());
    /// ```
    pub fn new(clock: &'a C, to: W) -> ProgressLine<'a, C, W>
        ensures unwritten { Keeps (W.contents to) (W.contents result.to) }
        ensures unshown { result.shown ≡ None }
    {
        let began = if to.is_terminal() {
            Instant::now(clock).ok()
        } else {
            None
        };
        ProgressLine {
            clock,
            to,
            began,
            shown: None,
            states: 0,
            looks: 0,
            events: 0,
            reached: None,
            begun: 0,
            may_follow: None,
            found: None,
            cut_short: None,
        }
    }
}

impl<'a, C: Clock, W: Write> ProgressLine<'a, C, W> {
    // The time, where the line is to be written.
    fn due(&self) -> Option<Instant> {
        let began = self.began?;
        let now = Instant::now(self.clock).ok()?;
        let is_due = match self.shown {
            Some(shown) => now.duration_since(shown) >= Duration::from_millis(NEXT),
            None => now.duration_since(began) >= Duration::from_millis(FIRST),
        };
        if is_due { Some(now) } else { None }
    }

    // Whether the last verdict was found so long ago that the searches that follow it are ended.
    fn is_late(&self) -> bool {
        match (self.found, Instant::now(self.clock)) {
            (Some(found), Ok(now)) => now.duration_since(found) >= Duration::from_secs(LONGEST),
            _ => false,
        }
    }

    // Lets no more states follow a verdict that was found so long ago.
    fn end_if_late(&mut self)
        ensures none { self.old.may_follow ≡ None → self.new.may_follow ≡ None }
        ensures states { self.new.states ≡ self.old.states }
        ensures begun { self.new.begun ≡ self.old.begun }
        ensures cut { self.new.cut_short ≡ self.old.cut_short }
        ensures began { self.new.began ≡ self.old.began }
        ensures unwritten { Keeps (W.contents self.old.to) (W.contents self.new.to) }
    {
        if self.may_follow.is_some() && self.is_late() {
            self.may_follow = Some(self.states.saturating_sub(self.begun));
        }
    }

    // As how many the next state counts, of as many as are left.
    fn count_next(&mut self, left: u64) -> u64
        requires { 0 < left }
        ensures some { 0 < result }
        ensures within { result ≤ left }
        ensures one { self.old.may_follow ≡ None → result ≡ 1 }
        ensures cut { IsCutAt self.old.begun self.old.states self.old.cut_short self.new.cut_short result }
        ensures states { self.new.states ≡ self.old.states }
        ensures begun { self.new.begun ≡ self.old.begun }
        ensures may_follow { self.new.may_follow ≡ self.old.may_follow }
        ensures began { self.new.began ≡ self.old.began }
        ensures unwritten { Keeps (W.contents self.old.to) (W.contents self.new.to) }
    {
        match self.may_follow {
            Some(most) if self.states.saturating_sub(self.begun) >= most => {
                self.cut_short = Some(most);
                late(left)
            }
            _ => 1,
        }
    }

    // Writes the line over the one that stands there.
    fn show(&mut self)
        ensures states { self.new.states ≡ self.old.states }
        ensures begun { self.new.begun ≡ self.old.begun }
        ensures may_follow { self.new.may_follow ≡ self.old.may_follow }
        ensures cut { self.new.cut_short ≡ self.old.cut_short }
    {
        let _written = match self.reached {
            Some((counts, time)) => {
                let ended = counts.ended;
                let granules = counts.granules;
                let outstanding = counts.outstanding;
                write!(
                    self.to,
                    "\rchicheck: {ended} operations, {granules} granules, {outstanding} open, time {time}\u{1b}[K"
                )
            }
            None => {
                let states = self.states;
                write!(self.to, "\rchicheck: {states} states\u{1b}[K")
            }
        };
    }

    // Writes the line where it is time to.
    fn show_if_due(&mut self)
        ensures states { self.new.states ≡ self.old.states }
        ensures begun { self.new.begun ≡ self.old.begun }
        ensures may_follow { self.new.may_follow ≡ self.old.may_follow }
        ensures cut { self.new.cut_short ≡ self.old.cut_short }
    {
        if let Some(now) = self.due() {
            self.show();
            self.shown = Some(now);
        }
    }
}

impl<'a, C: Clock, W: Write> Progress for ProgressLine<'a, C, W> {
    ghost states = { λ p n. IsCounted p.states n };

    ghost looked = { λ s p n. IsKnown s p.may_follow p.begun p.states p.cut_short n };

    ghost are_states = { λ p n is. is.1 };

    fn look(&mut self, left: u64) -> u64
        requires { 0 < left }
        ensures some { 0 < result }
        ensures within { result ≤ left }
        ensures one { (n : ℕ) → IsKnown for_verdict self.old.may_follow self.old.begun self.old.states self.old.cut_short n → result ≡ 1 }
        ensures looked { (s : Search) (n : ℕ) → IsKnown s self.old.may_follow self.old.begun self.old.states self.old.cut_short n → IsKnown s self.new.may_follow self.new.begun self.new.states self.new.cut_short (n + result) }
        ensures states { (n : ℕ) → IsCounted self.old.states n → IsCounted self.new.states (n + 1) }
        ensures unlimited { self.old.may_follow ≡ None → result ≡ 1 }
        ensures quiet { self.old.began ≡ None → Keeps (W.contents self.old.to) (W.contents self.new.to) }
    {
        let count = self.count_next(left);
        self.states = self.states.saturating_add(1);
        self.looks = self.looks.wrapping_add(1);
        if self.looks % FOLLOWING == 0 {
            self.end_if_late();
        }
        if self.began.is_some() && self.looks % STATES == 0 {
            self.show_if_due();
        }
        count
    }

    fn before_verdict(&mut self)
        ensures begins { (n : ℕ) → IsCounted self.old.states n → IsKnown for_verdict self.new.may_follow self.new.begun self.new.states self.new.cut_short n }
        ensures quiet { Keeps (W.contents self.old.to) (W.contents self.new.to) }
        ensures unlimited { self.new.may_follow ≡ None }
    {
        self.begun = self.states;
        self.may_follow = None;
    }

    fn after_verdict(&mut self, operations: usize, pending: usize)
        ensures ends { (n : ℕ) → IsKnown for_verdict self.old.may_follow self.old.begun self.old.states self.old.cut_short n → IsKnown (after_verdict n) self.new.may_follow self.new.begun self.new.states self.new.cut_short n }
        ensures quiet { Keeps (W.contents self.old.to) (W.contents self.new.to) }
        ensures limited { self.new.may_follow ≡ Some (min (min ((self.old.states - self.old.begun) * 16) 2000000 + operations * 64 + 100000) (2 ^ 64 - 1) / max 1 (pending / 48)) }
    {
        let taken = self.states.saturating_sub(self.begun);
        self.begun = self.states;
        self.may_follow = Some(states_after(taken, operations, pending));
        self.found = Instant::now(self.clock).ok();
        self.cut_short = None;
    }

    fn cut_short(&self) -> Option<u64> {
        self.cut_short
    }
}

impl<'a, C: Clock, W: Write> WatchProgress for ProgressLine<'a, C, W> {
    fn reached(&mut self, counts: Counts, time: u64)
        ensures looked { (s : Search) (n : ℕ) → IsKnown s self.old.may_follow self.old.begun self.old.states self.old.cut_short n → IsKnown s self.new.may_follow self.new.begun self.new.states self.new.cut_short n }
        ensures states { (n : ℕ) → IsCounted self.old.states n → IsCounted self.new.states n }
        ensures quiet { self.old.began ≡ None → Keeps (W.contents self.old.to) (W.contents self.new.to) }
    {
        self.events = self.events.wrapping_add(1);
        if self.began.is_some() && self.events % EVENTS == 0 {
            self.reached = Some((counts, time));
            self.show_if_due();
        }
    }

    fn clear(&mut self)
        ensures looked { (s : Search) (n : ℕ) → IsKnown s self.old.may_follow self.old.begun self.old.states self.old.cut_short n → IsKnown s self.new.may_follow self.new.begun self.new.states self.new.cut_short n }
        ensures no_more { (s : Search) (n : ℕ) → IsKnown s self.new.may_follow self.new.begun self.new.states self.new.cut_short n → IsKnown s self.old.may_follow self.old.begun self.old.states self.old.cut_short n }
        ensures states { (n : ℕ) → IsCounted self.old.states n → IsCounted self.new.states n }
        ensures quiet { self.old.shown ≡ None → Keeps (W.contents self.old.to) (W.contents self.new.to) }
        ensures cleared { self.new.shown ≡ None }
    {
        if self.shown.is_some() {
            let _written = write!(self.to, "\r\u{1b}[K");
            self.shown = None;
        }
    }
}
