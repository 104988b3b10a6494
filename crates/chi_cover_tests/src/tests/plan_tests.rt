//! Plans: goals of single bins, bins that are excluded, and what is written of them.

use crate::tests::comparison::assert_same;
use crate::tests::operations::{covered_by, small_trace};
use chi_cover::{Bin, Covered, Plan, Refusals, Rule, add_json, add_table, bins_fitting};
use std::alloc::Global;
use std::test::Fail;

/// A rule: the pattern, the goal, and the reason.
type Stated = (&'static str, Option<u64>, &'static str);

/// A plan with a goal of one operation and these rules.
fn plan_of(alloc: Global, rules: &[Stated]) -> Result<Plan, Fail> {
    let mut plan = Plan::of_goal(alloc, 1)?;
    for (bins, goal, why) in rules {
        let bins = Vec::from_slice(alloc, bins.as_bytes())?;
        let why = Vec::from_slice(alloc, why.as_bytes())?;
        let rule = Rule {
            bins,
            goal: *goal,
            why,
        };
        plan.add(alloc, rule)?;
    }
    Ok(plan)
}

// How many bins fit a pattern, by hand: 20 kinds have 60 bins each, 30 of a byte order.
const FITTING: [(&str, usize); 13] = [
    ("", 0),
    ("*", 1410),
    ("**", 1410),
    ("open", 0),
    ("open 2", 1),
    ("open*", 5),
    ("* while *", 36),
    ("*while*open*", 36),
    ("ReadNoSnp, big-endian, *", 30),
    ("*lane 15", 40),
    ("*, 8 bytes, lane 8", 40),
    ("AtomicLoad.*, kept", 32),
    ("*, big-endian, *, lane 1", 20),
];

#[test]
fn bins_that_fit_patterns(rt: HostRuntime) -> Result<(), Fail> {
    let alloc = rt.alloc();
    for (pattern, count) in &FITTING {
        let found = bins_fitting(alloc, pattern.as_bytes())?;
        assert_same(&rt, (*pattern, found), (*pattern, *count));
    }
    Ok(())
}

// The last rule that fits a bin says its goal.
#[test]
fn later_rules_decide(rt: HostRuntime) -> Result<(), Fail> {
    let alloc = rt.alloc();
    let rules: [Stated; 3] = [
        ("*", None, "all but reads"),
        ("ReadNoSnp, *", Some(2), ""),
        ("open 2", Some(7), ""),
    ];
    let plan = plan_of(alloc, &rules)?;
    assert_same(&rt, plan.wanted(), 61);
    assert_same(&rt, plan.goal(), 1);
    assert_same(&rt, plan.rules().len(), 3);
    assert_same(&rt, plan.goal_of(Bin::Wrapped { len: 4 }), None);
    let same = Bin::Requester { same: true };
    assert_same(&rt, plan.goal_of(same), None);
    Ok(())
}

// Of the nine bins that the trace covers two are of writes, and two have counted one of the two operations that they have to.
#[test]
fn the_table_of_a_plan(rt: HostRuntime) -> Result<(), Fail> {
    let alloc = rt.alloc();
    let rules: [Stated; 2] = [
        ("WriteNoSnpPtl, *", None, "no writes\nyet"),
        ("open *", Some(2), ""),
    ];
    let plan = plan_of(alloc, &rules)?;
    let covered = covered_by(alloc, &small_trace()?)?;
    let mut table = Vec::new(alloc);
    add_table(alloc, &mut table, &covered, &plan)?;
    let table = String::from_utf8(table)?;
    for line in [
        "operations: 1 of 1140\n",
        "\nwrites: 0 of 0\n",
        "\nopen at once: 0 of 5\n",
        "\ncovered: 5 of 1339 (0%)\nexcluded by WriteNoSnpPtl, *: 71 (no writes yet)\nat least 2 by open *: 5\nmissing: ",
        "\nexcluded but met: WriteNoSnpPtl, big-endian, 4 bytes, lane 4: 1\n",
        "\nmissing: open 1: 1 of 2\n",
        "\nmissing: open more than 8\n",
    ] {
        assert_same(&rt, (line, table.contains(line)), (line, true));
    }
    let excluded = "\nexcluded but met: ";
    assert_same(&rt, table.matches(excluded).count(), 2);
    assert_same(&rt, table.contains("missing: WriteNoSnpPtl, "), false);
    Ok(())
}

#[test]
fn the_json_of_a_plan(rt: HostRuntime) -> Result<(), Fail> {
    let alloc = rt.alloc();
    let rules: [Stated; 2] = [("open *", None, "<\"\n\\\u{e9}"), ("open 2", Some(3), "")];
    let plan = plan_of(alloc, &rules)?;
    let covered = covered_by(alloc, &small_trace()?)?;
    let mut json = Vec::new(alloc);
    add_json(alloc, &mut json, &covered, &Refusals::none(), &plan, &[5])?;
    let json = String::from_utf8(json)?;
    for part in [
        r#"{"covered":"7","bins":"1406","percent":"0","goal":"1","plan":[{"bins":"open *","count":"5","goal":null,"why":"\u003c\u0022\u000a\u005c"#,
        r#""},{"bins":"open 2","count":"1","goal":"3","why":""}],"added":["5"],"groups":"#,
        r#"["open 1","1",null],["open 2","1","3"],["open 3 to 4","0",null]"#,
        r#"["an overlap with an earlier operation of another requester","1"]"#,
    ] {
        assert_same(&rt, (part, json.contains(part)), (part, true));
    }
    Ok(())
}

// No bin is wanted, so none is missing.
#[test]
fn a_plan_that_wants_no_bin(rt: HostRuntime) -> Result<(), Fail> {
    let alloc = rt.alloc();
    let plan = plan_of(alloc, &[("*", None, "later")])?;
    let covered = Covered::new(alloc)?;
    assert_same(&rt, plan.wanted(), 0);
    assert_same(&rt, covered.covered(&plan), 0);
    assert_same(&rt, covered.percent(&plan), 100);
    Ok(())
}
