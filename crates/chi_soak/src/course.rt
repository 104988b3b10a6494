//! The whole course: a home is opened, rounds follow each other until the time is over, and what a monitor would have told
//! is written.

ghost use Rattle.std.specs.Prelude.{◌≡◌, ◌≤◌};
ghost use Rattle.chi_history.specs.NumberSets.{below};

use crate::fault::SoakFault;
use crate::options::Options;
use crate::plant::lose_exchange;
use crate::requests::{BASE, GRANULES};
use crate::rounds::{Rounds, race_round};
use chi_bookstore::BookStore;
use chi_fields::Region;
use chi_history::Home;
use std::io::Write;
use std::sync::Wait;
use std::sync::atomic::Ordering;
use std::thread::Threads;
use std::time::{Clock, Duration, Instant};

// The requesters 0 to 4: 0 is served between rounds.
const REQUESTERS: u8 = 5;

// How many tries a request gets before RetryAck.
const ATTEMPTS: u8 = 4;

/// The time that the clock shows.
fn now<T: Clock>(rt: &T) -> Result<Instant, SoakFault> {
    match Instant::now(rt) {
        Ok(time) => Ok(time),
        Err(_) => Err(SoakFault::Clock),
    }
}

/// Races rounds at a home until the time is over. After the second one an exchange is lost where that is asked for.
fn race_rounds<H: Home + Sync, T: AllocGlobal + Clock + Threads + Wait + Sync, W: Write>(
    home: &H,
    rt: &T,
    seat: &mut H::Seat,
    rounds: &mut Rounds,
    options: &Options,
    to: &mut W,
) -> Result<(), SoakFault>
    requires own { H.belongs home.now seat.old }
    requires all { H.held seat.old ≡ below (H.opening home.now).requesters }
    requires five { 5 ≤ (H.opening home.now).requesters }
    ensures own { H.belongs home.now seat.new }
    ensures held { H.held seat.new ≡ H.held seat.old }
{
    let began = now(rt)?;
    let long = Duration::from_secs(options.seconds);
    'rounds: for round in 0..u64::MAX {
        if now(rt)?.duration_since(began) >= long {
            break;
        }
        race_round(home, rt, seat, rounds)?;
        if options.plant && round == 1 {
            lose_exchange(home, rt, seat, rounds)?;
        }
        rounds.write_told(to)?;
    }
    Ok(())
}

/// Soaks a store for as long as the options say, and writes each event that a monitor at the home would have told, a line
/// for each: first the words of all granules, then the requests and how they ended, and the words at the end. Where no
/// time is asked for nothing is written.
pub(crate) fn soak<T: AllocGlobal + Clock + Threads + Wait + Sync, W: Write>(
    rt: &T,
    options: &Options,
    to: &mut W,
) -> Result<(), SoakFault> {
    if options.seconds == 0 {
        return Ok(());
    }
    let Ok(region) = Region::new(BASE, GRANULES) else {
        return Err(SoakFault::Opening);
    };
    let mut rounds = Rounds::new(rt.alloc())?;
    let mut words = [0; GRANULES as usize];
    for word in &mut words {
        *word = rounds.word();
    }
    let (home, mut seat) = BookStore::open(rt.alloc(), region, REQUESTERS, ATTEMPTS, &words)?;
    rounds.told.tell_words(&words, 0, false)?;
    race_rounds(&home, rt, &mut seat, &mut rounds, options, to)?;
    home.snapshot(rt, &mut seat, &mut words);
    let end = rounds.clock.load(Ordering::SeqCst);
    rounds.told.tell_words(&words, end, true)?;
    rounds.write_told(to)?;
    Ok(())
}
