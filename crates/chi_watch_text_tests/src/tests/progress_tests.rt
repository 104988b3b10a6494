//! What is told of how far a watch is.

ghost use Rattle.std.specs.Prelude.{⊤};

use crate::tests::comparison::assert_same;
use crate::tests::events::{FIVE, READ, STOPPING, WRITE, ZERO, joined};
use chi_search::Progress;
use chi_watch::Counts;
use chi_watch_text::{WatchProgress, watch_lines};
use std::test::Fail;

// Keeps what it was told last, how often it was told, and how often it was cleared.
#[derive(Drop)]
struct Kept {
    told: u64,
    cleared: u64,
    last: Option<(Counts, u64)>,
}

impl Progress for Kept {
    ghost states = { λ k n. ⊤ };

    ghost looked = { λ s k n. ⊤ };

    ghost are_states = { λ k n is. is };

    fn look(&mut self, _left: u64) -> u64 {
        1
    }

    fn before_verdict(&mut self) {}

    fn after_verdict(&mut self, _operations: usize, _pending: usize) {}

    fn cut_short(&self) -> Option<u64> {
        None
    }
}

impl WatchProgress for Kept {
    fn reached(&mut self, counts: Counts, time: u64) {
        self.told = self.told.saturating_add(1);
        self.last = Some((counts, time));
    }

    fn clear(&mut self) {
        self.cleared = self.cleared.saturating_add(1);
    }
}

// A line that tells no event is not told of. What is shown is taken back before a granule is told.
#[test]
fn the_last_event(rt: HostRuntime) -> Result<(), Fail> {
    for (texts, told, ended, outstanding, time, cleared) in &[
        ([WRITE, "", ""], 2, 1, 0, 2, 0),
        ([WRITE, READ, ""], 3, 1, 1, 3, 0),
        ([WRITE, READ, FIVE], 4, 2, 0, 4, 0),
        ([WRITE, READ, ZERO], 4, 2, 0, 4, 1),
        ([WRITE, READ, "{\n"], 3, 1, 1, 3, 0),
    ] {
        let text = joined(rt.alloc(), texts)?;
        let mut from = text.as_slice();
        let mut kept = Kept {
            told: 0,
            cleared: 0,
            last: None,
        };
        let mut out = Vec::new(rt.alloc());
        let _watched = watch_lines(rt.alloc(), &mut from, &mut out, &STOPPING, &mut kept);
        let counts = Counts {
            ended: *ended,
            outstanding: *outstanding,
            granules: 1,
        };
        assert_same(
            &rt,
            (kept.told, kept.last, kept.cleared),
            (*told, Some((counts, *time)), *cleared),
        );
    }
    Ok(())
}
