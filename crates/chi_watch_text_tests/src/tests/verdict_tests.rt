//! The verdict on what is found.

use crate::tests::comparison::assert_same;
use chi_judge::{Reach, Standing};
use chi_watch::{Counts, Ending, FoundAtEnd, UndecidedAtEnd};
use chi_watch_text::{FoundGranule, Watched};
use std::alloc::{AllocError, Global};
use std::test::Fail;

/// The verdict where so many granules were found by lines, and so many are listed at the end of either kind.
fn verdict(
    alloc: Global,
    found: usize,
    unexplained: usize,
    undecided: usize,
) -> Result<Standing, AllocError> {
    let mut by_line = Vec::new(alloc);
    for _ in 0..found {
        by_line.push(FoundGranule {
            granule: 512,
            line: 4,
            reach: Reach::Undecided,
            cut_short: None,
        })?;
    }
    let mut at_end = Vec::new(alloc);
    for _ in 0..unexplained {
        at_end.push(FoundAtEnd {
            granule: 513,
            final_word: None,
            reach: Reach::Undecided,
            cut_short: None,
        })?;
    }
    let granule = UndecidedAtEnd {
        granule: 514,
        explained: None,
    };
    let ending = Ending {
        unexplained: at_end,
        undecided: vec![in alloc; granule; undecided]?,
    };
    let watched = Watched {
        found: by_line,
        ending: Some(ending),
        counts: Counts {
            ended: 0,
            outstanding: 0,
            granules: 3,
        },
        waiting: Vec::new(alloc),
        unjudged: 0,
        is_ended: true,
        kept: None,
    };
    Ok(watched.verdict())
}

// One granule that is not explained decides, whatever else is found.
#[test]
fn each_kind(rt: HostRuntime) -> Result<(), Fail> {
    for (found, unexplained, undecided, wanted) in [
        (0, 0, 0, Standing::Explained),
        (0, 0, 1, Standing::Undecided),
        (0, 1, 0, Standing::Unexplained),
        (0, 1, 1, Standing::Unexplained),
        (1, 0, 0, Standing::Unexplained),
        (1, 0, 1, Standing::Unexplained),
        (1, 1, 1, Standing::Unexplained),
    ] {
        let verdict = verdict(rt.alloc(), found, unexplained, undecided)?;
        assert_same(
            &rt,
            (found, unexplained, undecided, verdict),
            (found, unexplained, undecided, wanted),
        );
    }
    Ok(())
}
