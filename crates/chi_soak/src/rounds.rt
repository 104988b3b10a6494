//! Rounds of four workers who race at one home.

ghost use Rattle.std.specs.Prelude.{◌≡◌, ◌≤◌};
ghost use Rattle.chi_history.specs.NumberSets.{below};

use crate::events::Told;
use crate::fault::SoakFault;
use crate::lines::add_event;
use crate::requests::requests;
use crate::times::Times;
use chi_history::Home;
use chi_requester::{Policy, RaceFour, race_four};
use rand_core::{Rng, SeedableRng};
use rand_xoshiro::Xoshiro256PlusPlus;
use std::alloc::{AllocError, Global};
use std::io::Write;
use std::sync::Wait;
use std::sync::atomic::AtomicU64;
use std::thread::Threads;

// What the requests come from: two runs make the same ones.
const SEED: u64 = 1;

/// What the rounds share: the clock, the times of the workers, what is told and the line that tells it, and what the requests
/// come from.
#[derive(Drop)]
pub(crate) struct Rounds {
    pub(crate) clock: AtomicU64,
    one: Times,
    two: Times,
    three: Times,
    four: Times,
    pub(crate) told: Told,
    line: Vec<u8>,
    chance: Xoshiro256PlusPlus,
}

impl Rounds {
    /// Before the first round. The clock is 1, so that what is told of the time before it has the time 0.
    pub(crate) fn new(alloc: Global) -> Result<Rounds, AllocError> {
        Ok(Rounds {
            clock: AtomicU64::new(1),
            one: Times::new(alloc)?,
            two: Times::new(alloc)?,
            three: Times::new(alloc)?,
            four: Times::new(alloc)?,
            told: Told::new(Vec::new(alloc)),
            line: Vec::new(alloc),
            chance: Xoshiro256PlusPlus::seed_from_u64(SEED),
        })
    }

    /// A word by chance.
    pub(crate) fn word(&mut self) -> u64 {
        self.chance.next_u64()
    }

    /// Writes what is told, a line for each event, so that nothing is left of it.
    pub(crate) fn write_told<W: Write>(&mut self, to: &mut W) -> Result<(), SoakFault> {
        for event in &self.told.events {
            self.line.clear();
            add_event(&mut self.line, event)?;
            to.write_all(&self.line)?;
        }
        self.told.events.clear();
        to.flush()?;
        Ok(())
    }
}

/// Races the requests of a round, and tells what became of them in the order of their times.
pub(crate) fn race_round<H: Home + Sync, T: AllocGlobal + Threads + Wait + Sync>(
    home: &H,
    rt: &T,
    seat: &mut H::Seat,
    rounds: &mut Rounds,
) -> Result<(), SoakFault>
    requires own { H.belongs home.now seat.old }
    requires all { H.held seat.old ≡ below (H.opening home.now).requesters }
    requires five { 5 ≤ (H.opening home.now).requesters }
    ensures own { H.belongs home.now seat.new }
    ensures held { H.held seat.new ≡ H.held seat.old }
{
    let requests = requests(&mut rounds.chance, rt.alloc())?;
    let clock = &rounds.clock;
    let come = AtomicU64::new(0);
    let mut race = RaceFour::new(rt.alloc());
    race_four(
        home,
        rt,
        seat,
        requests.as_slice(),
        Policy::Return,
        rounds.one.gate(clock, &come),
        rounds.two.gate(clock, &come),
        rounds.three.gate(clock, &come),
        rounds.four.gate(clock, &come),
        &mut race,
    )?;
    let told = &mut rounds.told;
    told.tell_lines(race.one.as_slice(), &rounds.one)?;
    told.tell_lines(race.two.as_slice(), &rounds.two)?;
    told.tell_lines(race.three.as_slice(), &rounds.three)?;
    told.tell_lines(race.four.as_slice(), &rounds.four)?;
    told.sort()?;
    Ok(())
}
