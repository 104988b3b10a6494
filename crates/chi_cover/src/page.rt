//! The page of a coverage.

ghost use Rattle.std.specs.Prelude.{◌≡◌, ◌++◌, OnOk};
ghost use Rattle.chi_cover.specs.Counts.{count_in};
ghost use Rattle.chi_cover.specs.Json.{cover_json};
ghost use Rattle.chi_cover.specs.Page.{back_text, front_text, page_text};
ghost use Rattle.chi_cover.specs.Refusals.{refused_in};

use crate::covered::Covered;
use crate::json::add_json;
use crate::page_script::SCRIPT;
use crate::page_style::STYLE;
use crate::plan::Plan;
use crate::refusals::Refusals;
use chi_text::Part::Text;
use chi_text::add_parts;
use std::alloc::{AllocError, Global};

/// What stands before the style, and between it and the data.
const HEAD: &str =
    "<!DOCTYPE html>\n<html lang=\"en\">\n<head>\n<meta charset=\"utf-8\">\n<title>chicheck cover</title>\n<style>";

const BODY: &str =
    "</style>\n</head>\n<body>\n<noscript>This page needs JavaScript.</noscript>\n<script type=\"application/json\" id=\"coverage\">\n";

/// What stands before the data.
#[tactic(auto, unfolding(crate::specs::Page::front_text))]
fn add_front(to: &mut Vec<u8>) -> Result<(), AllocError>
    ensures { OnOk result (to.new.items ≡ to.old.items ++ front_text STYLE.now) }
{
    add_parts(to, &[Text(HEAD), Text(STYLE), Text(BODY)])
}

/// What stands after them.
#[tactic(auto, unfolding(crate::specs::Page::back_text))]
fn add_back(to: &mut Vec<u8>) -> Result<(), AllocError>
    ensures { OnOk result (to.new.items ≡ to.old.items ++ back_text SCRIPT.now) }
{
    add_parts(
        to,
        &[
            Text("</script>\n<script>"),
            Text(SCRIPT),
            Text("</script>\n</body>\n</html>\n"),
        ],
    )
}

/// Adds the page of a coverage to a text: one HTML file that needs no other, with the JSON of the coverage as data that a script
/// draws. `added` is how many bins each input added.
///
/// ```
/// add_page(alloc, &mut page, &covered, &refusals, &plan, &[6])?;
/// ```
#[tactic(auto, unfolding(crate::specs::Page::page_text))]
pub fn add_page(
    alloc: Global,
    to: &mut Vec<u8>,
    covered: &Covered,
    refusals: &Refusals,
    plan: &Plan,
    added: &[u64],
) -> Result<(), AllocError>
    ensures { OnOk result (to.new.items ≡ to.old.items ++ page_text (front_text STYLE.now) (cover_json plan.now added.now (count_in covered.now) (refused_in refusals.now)) (back_text SCRIPT.now)) }
{
    add_front(to)?;
    add_json(alloc, to, covered, refusals, plan, added)?;
    add_back(to)
}
