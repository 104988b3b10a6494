//! The page of a coverage, and the data in it.

use crate::tests::comparison::assert_same;
use crate::tests::operations::{covered_by, small_trace};
use chi_cover::{Covered, Plan, Refusals, add_json, add_page};
use chi_fields::Refusal;
use std::alloc::Global;
use std::test::Fail;

fn page(alloc: Global, covered: &Covered, refusals: &Refusals, goal: u64) -> Result<String, Fail> {
    let mut text = Vec::new(alloc);
    let plan = Plan::of_goal(alloc, goal)?;
    add_page(alloc, &mut text, covered, refusals, &plan, &[9])?;
    Ok(String::from_utf8(text)?)
}

#[test]
fn the_data_of_a_page(rt: HostRuntime) -> Result<(), Fail> {
    let alloc = rt.alloc();
    let covered = covered_by(alloc, &small_trace()?)?;
    let mut refusals = Refusals::none();
    refusals.add(&[Refusal::Misaligned]);
    let mut data = Vec::from_slice(
        alloc,
        b"<script type=\"application/json\" id=\"coverage\">\n",
    )?;
    let plan = Plan::of_goal(alloc, 2)?;
    add_json(alloc, &mut data, &covered, &refusals, &plan, &[9])?;
    data.extend_from_slice(b"</script>\n<script>")?;
    let data = String::from_utf8(data)?;
    let page = page(alloc, &covered, &refusals, 2)?;
    assert_same(&rt, page.contains(data.as_str()), true);
    Ok(())
}

#[test]
fn a_page_needs_no_other_file(rt: HostRuntime) -> Result<(), Fail> {
    let alloc = rt.alloc();
    let page = page(alloc, &Covered::new(alloc)?, &Refusals::none(), 1)?;
    assert_same(&rt, page.starts_with("<!DOCTYPE html>\n"), true);
    assert_same(&rt, page.ends_with("</script>\n</body>\n</html>\n"), true);
    assert_same(&rt, page.matches("</script>").count(), 2);
    assert_same(
        &rt,
        page.contains("{\"covered\":\"0\",\"bins\":\"1410\","),
        true,
    );
    assert_same(&rt, page.contains("http"), false);
    assert_same(&rt, page.contains("src="), false);
    Ok(())
}
