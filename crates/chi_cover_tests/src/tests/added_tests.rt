//! The lines of how many bins each input added.

use crate::tests::comparison::assert_same;
use chi_cover::add_added_lines;
use std::alloc::Global;
use std::test::Fail;

fn lines(alloc: Global, paths: &[&str], added: &[u64]) -> Result<String, Fail> {
    let mut text = Vec::new(alloc);
    add_added_lines(&mut text, paths, added)?;
    Ok(String::from_utf8(text)?)
}

#[test]
fn a_line_for_each_of_two_inputs_or_more(rt: HostRuntime) -> Result<(), Fail> {
    let alloc = rt.alloc();
    let two = lines(alloc, &["a.json", "b/c d.json"], &[518, 0])?;
    assert_same(
        &rt,
        two.as_str(),
        "added by a.json: 518\nadded by b/c d.json: 0\n",
    );
    let three = lines(alloc, &["a", "b", "a"], &[1, u64::MAX, 2])?;
    assert_same(
        &rt,
        three.as_str(),
        "added by a: 1\nadded by b: 18446744073709551615\nadded by a: 2\n",
    );
    Ok(())
}

#[test]
fn nothing_of_fewer_inputs(rt: HostRuntime) -> Result<(), Fail> {
    let alloc = rt.alloc();
    assert_same(&rt, lines(alloc, &[], &[518])?.is_empty(), true);
    assert_same(&rt, lines(alloc, &["a.json"], &[518])?.is_empty(), true);
    Ok(())
}
