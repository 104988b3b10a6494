//! The JSON of a coverage around some bins, worked by hand.

use crate::tests::comparison::assert_same;
use crate::tests::operations::{covered_by, covered_twice, small_trace};
use chi_cover::{Covered, Plan, Refusals, add_json};
use chi_fields::Refusal;
use std::alloc::Global;
use std::test::Fail;

// Nine of 1,410 bins have counted an operation: the operations of both, the byte enables of the write, two results of the
// AtomicLoad, one and two operations that were open, and of the write that it overlaps an AtomicLoad, of another requester. Three
// requests were refused, two of them for one reason. All of it is on one line.
const WANTED: [&str; 11] = [
    r#"{"covered":"9","bins":"1410","percent":"0","goal":"1","plan":[],
"added":["8","0","2"],"groups":[{"name":"operations","bins":[["ReadNoSnp, little-endian, 1 byte, lane 0","0"],
["ReadNoSnp, little-endian, 1 byte, lane 1","0"],
"#,
    r#"
["WriteNoSnpPtl, big-endian, 4 bytes, lane 0","0"],
["WriteNoSnpPtl, big-endian, 4 bytes, lane 4","1"],
["WriteNoSnpPtl, big-endian, 4 bytes, lane 8","0"],
"#,
    r#"
["AtomicLoad.ADD, little-endian, 1 byte, lane 15","0"],
["AtomicLoad.ADD, little-endian, 2 bytes, lane 0","0"],
["AtomicLoad.ADD, little-endian, 2 bytes, lane 2","0"],
["AtomicLoad.ADD, little-endian, 2 bytes, lane 4","1"],
["AtomicLoad.ADD, little-endian, 2 bytes, lane 6","0"],
"#,
    r#"
["AtomicCompare, big-endian, 8 bytes, lane 8","0"]]},
{"name":"compares","bins":[["AtomicCompare, 1 byte, compare value in the lower half, matched","0"],
["AtomicCompare, 1 byte, compare value in the lower half, failed","0"],
"#,
    r#"
["AtomicCompare, 8 bytes, compare value in the upper half, failed","0"]]},
{"name":"writes","bins":[["WriteNoSnpPtl, 1 byte, byte enables: none","0"],
["WriteNoSnpPtl, 1 byte, byte enables: all","0"],
["WriteNoSnpPtl, 2 bytes, byte enables: none","0"],
["WriteNoSnpPtl, 2 bytes, byte enables: some","0"],
["WriteNoSnpPtl, 2 bytes, byte enables: all","0"],
["WriteNoSnpPtl, 4 bytes, byte enables: none","0"],
["WriteNoSnpPtl, 4 bytes, byte enables: some","1"],
["WriteNoSnpPtl, 4 bytes, byte enables: all","0"],
["WriteNoSnpPtl, 8 bytes, byte enables: none","0"],
["WriteNoSnpPtl, 8 bytes, byte enables: some","0"],
["WriteNoSnpPtl, 8 bytes, byte enables: all","0"]]},
{"name":"results","bins":[["AtomicLoad.ADD, 1 byte, kept","0"],
["AtomicLoad.ADD, 2 bytes, kept","0"],
"#,
    r#"
["AtomicLoad.UMIN, 8 bytes, kept","0"],
["AtomicLoad.ADD, 1 byte, changed sign","0"],
["AtomicLoad.ADD, 2 bytes, changed sign","1"],
["AtomicLoad.ADD, 4 bytes, changed sign","0"],
"#,
    r#"
["AtomicLoad.UMIN, 8 bytes, changed sign","0"],
["AtomicLoad.ADD, 1 byte, wrapped","0"],
["AtomicLoad.ADD, 2 bytes, wrapped","1"],
["AtomicLoad.ADD, 4 bytes, wrapped","0"],
["AtomicLoad.ADD, 8 bytes, wrapped","0"]]},
{"name":"open at once","bins":[["open 1","1"],
["open 2","1"],
["open 3 to 4","0"],
["open 5 to 8","0"],
["open more than 8","0"]]},
{"name":"overlaps","bins":[["ReadNoSnp while ReadNoSnp was open","0"],
["WriteNoSnpPtl while ReadNoSnp was open","0"],
"#,
    r#"
["ReadNoSnp while AtomicLoad was open","0"],
["WriteNoSnpPtl while AtomicLoad was open","1"],
["AtomicStore while AtomicLoad was open","0"],
"#,
    r#"
["AtomicCompare while AtomicCompare was open","0"]]},
{"name":"requesters","bins":[["an overlap with an earlier operation of the same requester","0"],
["an overlap with an earlier operation of another requester","1"]]},
{"name":"sequences","bins":[["ReadNoSnp after ReadNoSnp","0"],
["WriteNoSnpPtl after ReadNoSnp","0"],
"#,
    r#"
["AtomicCompare after AtomicCompare","0"]]},
{"name":"line sequences","bins":[["ReadNoSnp after ReadNoSnp on the line","0"],
["WriteNoSnpPtl after ReadNoSnp on the line","0"],
"#,
    r#"
["AtomicCompare after AtomicCompare on the line","0"]]}],
"refused":[["UnknownOpcode","0"],
["ReservedSize","0"],
["SizeOutOfProfile","0"],
["Misaligned","2"],
["OutOfRegion","0"],
["BadByteEnable","1"]]}"#,
];

/// Lines as one.
fn on_one_line(alloc: Global, lines: &str) -> Result<String, Fail> {
    let mut whole = String::new(alloc);
    for line in lines.lines() {
        whole.push_str(line)?;
    }
    Ok(whole)
}

fn json(
    alloc: Global,
    covered: &Covered,
    refusals: &Refusals,
    goal: u64,
    added: &[u64],
) -> Result<String, Fail> {
    let mut text = Vec::new(alloc);
    let plan = Plan::of_goal(alloc, goal)?;
    add_json(alloc, &mut text, covered, refusals, &plan, added)?;
    Ok(String::from_utf8(text)?)
}

#[test]
fn the_json_of_a_small_trace(rt: HostRuntime) -> Result<(), Fail> {
    let alloc = rt.alloc();
    let covered = covered_by(alloc, &small_trace()?)?;
    let mut refusals = Refusals::none();
    refusals.add(&[
        Refusal::Misaligned,
        Refusal::BadByteEnable,
        Refusal::Misaligned,
    ]);
    let json = json(alloc, &covered, &refusals, 1, &[8, 0, 2])?;
    for wanted in &WANTED {
        let wanted = on_one_line(alloc, wanted)?;
        assert_same(&rt, json.contains(wanted.as_str()), true);
    }
    assert_same(&rt, json.matches("\",\"0\"]").count(), 1401 + 4);
    assert_same(&rt, json.matches("\",\"1\"]").count(), 9 + 1);
    Ok(())
}

#[test]
fn one_object_on_a_line(rt: HostRuntime) -> Result<(), Fail> {
    let alloc = rt.alloc();
    let json = json(alloc, &Covered::new(alloc)?, &Refusals::none(), 1, &[])?;
    assert_same(
        &rt,
        json.starts_with(
            r#"{"covered":"0","bins":"1410","percent":"0","goal":"1","plan":[],"added":[],"groups":[{"#,
        ),
        true,
    );
    assert_same(&rt, json.ends_with("[\"BadByteEnable\",\"0\"]]}\n"), true);
    assert_same(&rt, json.matches("\n").count(), 1);
    assert_same(&rt, json.matches("\",\"0\"]").count(), 1410 + 6);
    Ok(())
}

// Four bins have counted two operations. The counts are the same at each goal.
#[test]
fn the_json_at_a_goal_of_two_operations(rt: HostRuntime) -> Result<(), Fail> {
    let alloc = rt.alloc();
    let covered = covered_twice(alloc)?;
    let json = json(alloc, &covered, &Refusals::none(), 2, &[u64::MAX])?;
    for wanted in [
        r#"{"covered":"4","bins":"1410","percent":"0","goal":"2","plan":[],"added":["18446744073709551615"],"groups":[{"name":"operations","#,
        r#"["WriteNoSnpPtl, big-endian, 4 bytes, lane 4","1"]"#,
        r#"["AtomicLoad.ADD, little-endian, 2 bytes, lane 4","2"]"#,
        r#"[["open 1","2"],["open 2","1"],["open 3 to 4","0"],"#,
    ] {
        assert_same(&rt, json.contains(wanted), true);
    }
    Ok(())
}
