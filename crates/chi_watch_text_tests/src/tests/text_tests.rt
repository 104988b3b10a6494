//! The texts of what is found.

use crate::tests::comparison::assert_same;
use crate::tests::events::{
    ALL, FIVE, GOING, LAST, NINE_AND_FIVE, READ, READ_WITHIN_A_WRITE, STOPPING, UNKNOWN, WRITE,
    ZERO, answer,
};
use chi_answer::AnswerFormat;
use chi_judge::Reach;
use chi_trace::RequestFields;
use chi_watch::{Counts, Ending, FoundAtEnd, UndecidedAtEnd};
use chi_watch_text::{
    FoundGranule, Required, Waiting, WaitsFor, WatchOptions, Watched, closing_text,
};
use std::alloc::{AllocError, Global};
use std::process::Abort;
use std::test::Fail;

// Compares what is found of texts one after the other: its text, with how many operations ended, how many requests are
// outstanding, how many granules there are, and how many of these are not judged.
fn assert_answer<R: AllocGlobal + Abort>(
    rt: &R,
    texts: &[&str],
    options: &WatchOptions,
    found: &str,
    (ended, outstanding, granules, unjudged): (u64, u64, u64, u64),
) -> Result<(), Fail> {
    let text = answer(rt.alloc(), texts, options)?;
    let wanted = format!(in rt.alloc();
        "{found}  operations that ended: {ended}
  requests outstanding: {outstanding}
  granules: {granules}
  granules not judged: {unjudged}
"
    )?;
    assert_same(rt, text.as_str(), wanted.as_str());
    Ok(())
}

#[test]
fn what_is_explained(rt: HostRuntime) -> Result<(), Fail> {
    let texts = [WRITE, READ, FIVE];
    assert_answer(&rt, &texts, &STOPPING, "explained\n", (2, 0, 1, 0))
}

#[test]
fn what_is_outstanding_or_not_judged(rt: HostRuntime) -> Result<(), Fail> {
    let text = answer(rt.alloc(), &[WRITE, READ, UNKNOWN], &STOPPING)?;
    assert_same(
        &rt,
        text.as_str(),
        "explained
  operations that ended: 1
  requests outstanding: 1
    line 3 since 3: 0 2 04 ReadNoSnp 3 0000000000001000 waits for its reply
  granules: 2
  granules not judged: 1
",
    );
    Ok(())
}

// What is found by the read of 0 where 5 was written.
const READ_OF_ZERO: &str = "not explained: granule 0000000000001000
at 4: 0 2 04 ReadNoSnp 3 0000000000001000 answered
  the granule can hold 0500000000000000
  open from 3 to 4: 0 2 04 ReadNoSnp 3 0000000000001000 answered
  explained up to 3
  the last operations of the granule, from time 1 to 4:
    line 1 |==============                          |  1 to 2  WriteNoSnpPtl  +0 L8  sent 0500000000000000  comp  requester 0 txn 1
  > line 3 |                          ##############|  3 to 4  ReadNoSnp      +0 L8  returned 0000000000000000  requester 0 txn 2
    legal would be:  returned 0500000000000000
    unlike each of these: +0 is 00
    last written by line 1: +0
  at line 4
";

#[test]
fn where_it_stops_at_a_line(rt: HostRuntime) -> Result<(), Fail> {
    let texts = [WRITE, READ, ZERO, "\n", NINE_AND_FIVE, LAST];
    assert_answer(&rt, &texts, &STOPPING, READ_OF_ZERO, (2, 0, 1, 0))
}

#[test]
fn where_it_keeps_going(rt: HostRuntime) -> Result<(), Fail> {
    let texts = [WRITE, READ, ZERO, "\n", NINE_AND_FIVE, LAST];
    let found = format!(in rt.alloc();
        "{READ_OF_ZERO}not explained: granule 0000000000001008
at 6: 0 3 04 ReadNoSnp 3 0000000000001008 answered
  the granule can hold 0000000000000000
  open from 5 to 6: 0 3 04 ReadNoSnp 3 0000000000001008 answered
  explained up to 5
  the last operations of the granule, from time 5 to 6:
  > line 5 |########################################|  5 to 6  ReadNoSnp  +0 L8  returned 0900000000000000  requester 0 txn 3
    legal would be:  returned 0000000000000000
    unlike each of these: +0 is 09
  at line 6
not explained: granule 0000000000001010
at the end: 0800000000000000
  the granule can hold 0000000000000000
  at the end
"
    )?;
    assert_answer(&rt, &texts, &GOING, found.as_str(), (4, 0, 3, 0))
}

// Within a budget of no states a granule is not decided whose operations took effect in another order than they ended, and one with
// words alone is, but not which word it could hold at the end.
#[test]
fn no_budget(rt: HostRuntime) -> Result<(), Fail> {
    let options = WatchOptions { budget: 0, ..GOING };
    let found = "not explained: granule 0000000000001010
  at the end
undecided: granule 0000000000001000 after 0 states
";
    let texts = [READ_WITHIN_A_WRITE, LAST];
    assert_answer(&rt, &texts, &options, found, (2, 0, 2, 0))
}

/// A granule that is found at the end, of which no word is told and it is not found how far it can be explained.
fn at_end(granule: u64) -> FoundAtEnd {
    FoundAtEnd {
        granule,
        final_word: None,
        reach: Reach::Undecided,
        cut_short: None,
    }
}

/// A granule that is not decided, and the time up to which it is explained, where one was found.
fn undecided(granule: u64, explained: Option<u64>) -> UndecidedAtEnd {
    UndecidedAtEnd { granule, explained }
}

// What is found where there is all that can be told: a granule by a line, others at the end, and some that are not decided. The
// address of the granule 2^52 / 8 - 1 is 2^52 - 8.
fn all_found(alloc: Global) -> Result<Watched, AllocError> {
    let found = FoundGranule {
        granule: 513,
        line: 18446744073709551614,
        reach: Reach::Undecided,
        cut_short: None,
    };
    let mut unexplained = Vec::new(alloc);
    unexplained.push(FoundAtEnd {
        cut_short: Some(100_400),
        ..at_end(0)
    })?;
    unexplained.push(at_end(513))?;
    let ending = Ending {
        unexplained,
        undecided: vec![in alloc; undecided(512, Some(30)), undecided(562949953421311, None)]?,
    };
    let mut by_line = Vec::new(alloc);
    by_line.push(found)?;
    Ok(Watched {
        found: by_line,
        ending: Some(ending),
        counts: Counts {
            ended: 1000,
            outstanding: 20,
            granules: 300,
        },
        waiting: Vec::new(alloc),
        unjudged: 4,
        is_ended: false,
        kept: None,
    })
}

// A granule that was found by a line is not told of at the end.
#[test]
fn all_there_is_to_tell(rt: HostRuntime) -> Result<(), Fail> {
    let watched = all_found(rt.alloc())?;
    let options = WatchOptions {
        budget: 70,
        required: Required {
            operations: 1001,
            ..ALL
        },
        ..GOING
    };
    let text = String::from_utf8(closing_text(rt.alloc(), &watched, &options)?)?;
    assert_same(
        &rt,
        text.as_str(),
        "not explained: granule 0000000000000000
  what is not shown was not found within 100400 more states
  at the end
undecided: granule 0000000000001000 after 70 states
  explained up to 30
undecided: granule 000ffffffffffff8 after 70 states
  operations that ended: 1000
  requests outstanding: 20
  granules: 300
  granules not judged: 4
required: the last line tells the end
required: at least 1001 operations ended, and 1000 did
required: no request is outstanding, and 20 are
required: each granule is judged, and 4 are not
",
    );
    Ok(())
}

// A request that is outstanding since 7, which line 3 told.
fn waiting(waits_for: WaitsFor) -> Waiting {
    Waiting {
        fields: RequestFields {
            number: 3,
            src: 1,
            txn: 258,
            opcode: 0x39,
            size: 3,
            addr: 4100,
            endian: false,
            be: 240,
            lanes: [0; 16],
        },
        since: 7,
        waits_for,
    }
}

// The same as JSON, an object on each line.
#[test]
fn all_there_is_to_tell_as_json(rt: HostRuntime) -> Result<(), Fail> {
    let found = all_found(rt.alloc())?;
    let watched = Watched {
        waiting: vec![in rt.alloc(); waiting(WaitsFor::Dbid), waiting(WaitsFor::Reply)]?,
        ..found
    };
    let options = WatchOptions {
        answer: AnswerFormat::Json,
        budget: 70,
        required: Required {
            judged: false,
            ..ALL
        },
        ..GOING
    };
    let text = String::from_utf8(closing_text(rt.alloc(), &watched, &options)?)?;
    assert_same(
        &rt,
        text.as_str(),
        "{\"answer\":\"not explained\",\"granule\":\"0000000000000000\",\"line\":null,\"at_end\":null,\"words\":null,\"cut_short\":\"100400\"}
{\"answer\":\"undecided\",\"granule\":\"0000000000001000\",\"states\":\"70\",\"explained_to\":\"30\"}
{\"answer\":\"undecided\",\"granule\":\"000ffffffffffff8\",\"states\":\"70\",\"explained_to\":null}
{\"answer\":\"not explained\",\"operations\":\"1000\",\"outstanding\":\"20\",\"waiting\":[{\"request\":3,\"src\":1,\"txn\":258,\"op\":57,\"name\":\"AtomicCompare\",\"size\":3,\"addr\":\"0000000000001004\",\"start\":\"7\",\"waits_for\":\"DBID\"},{\"request\":3,\"src\":1,\"txn\":258,\"op\":57,\"name\":\"AtomicCompare\",\"size\":3,\"addr\":\"0000000000001004\",\"start\":\"7\",\"waits_for\":\"reply\"}],\"granules\":\"300\",\"not_judged\":\"4\",\"missing\":{\"end\":true,\"operations\":false,\"quiet\":true,\"judged\":false}}
",
    );
    Ok(())
}
