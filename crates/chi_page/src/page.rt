//! The page.

ghost use Rattle.std.specs.Prelude.{◌≡◌, ◌++◌, OnOk};
ghost use Rattle.std.specs.Option.{option_copied};
ghost use Rattle.chi_page.specs.Granules.{AreOfTrace};
ghost use Rattle.chi_page.specs.Pages.{back_text, data_json, front_text, page_text};

use crate::blame::add_blamed;
use crate::details_script::DETAILS;
use crate::drawing_script::DRAWING;
use crate::drawn::Drawn;
use crate::granule::add_granules;
use crate::layout_script::LAYOUT;
use crate::moving_script::MOVING;
use crate::operation::add_operations;
use crate::page_script::PAGE;
use crate::style::STYLE;
use chi_reading::Recorded;
use chi_text::Part::Text;
use chi_text::add_parts;
use chi_verdict::Blame;
use std::alloc::AllocError;

/// What stands before the style, and between it and the data.
const HEAD: &str =
    "<!DOCTYPE html>\n<html lang=\"en\">\n<head>\n<meta charset=\"utf-8\">\n<title>chicheck explain</title>\n<style>";

const BODY: &str =
    "</style>\n</head>\n<body>\n<noscript>This page needs JavaScript.</noscript>\n<script type=\"application/json\" id=\"trace\">\n";

/// The data that the script reads.
#[tactic(auto, unfolding(crate::specs::Pages::data_json))]
fn add_data(
    to: &mut Vec<u8>,
    recorded: &Recorded,
    granules: &[Drawn],
    blame: Option<&Blame>,
) -> Result<(), AllocError>
    requires { AreOfTrace recorded.now granules.now }
    ensures { OnOk result (to.new.items ≡ to.old.items ++ data_json recorded.now granules.now (option_copied blame.entry)) }
{
    add_parts(to, &[Text("{\"blame\":")])?;
    add_blamed(to, blame)?;
    add_parts(to, &[Text(",\n\"granules\":[")])?;
    add_granules(to, recorded, granules)?;
    add_parts(to, &[Text("],\n\"operations\":[")])?;
    add_operations(to, recorded)?;
    add_parts(to, &[Text("]}\n")])
}

/// What stands before the data.
#[tactic(auto, unfolding(crate::specs::Pages::front_text))]
fn add_front(to: &mut Vec<u8>) -> Result<(), AllocError>
    ensures { OnOk result (to.new.items ≡ to.old.items ++ front_text STYLE.now) }
{
    add_parts(to, &[Text(HEAD), Text(STYLE), Text(BODY)])
}

/// What stands after them.
#[tactic(auto, unfolding(crate::specs::Pages::back_text))]
fn add_back(to: &mut Vec<u8>) -> Result<(), AllocError>
    ensures { OnOk result (to.new.items ≡ to.old.items ++ back_text LAYOUT.now DRAWING.now MOVING.now DETAILS.now PAGE.now) }
{
    add_parts(
        to,
        &[
            Text("</script>\n<script>"),
            Text(LAYOUT),
            Text(DRAWING),
            Text(MOVING),
            Text(DETAILS),
            Text(PAGE),
            Text("</script>\n</body>\n</html>\n"),
        ],
    )
}

/// Adds the page of a trace: what was found of its granules, where it stops being explained, and its operations, as data that a
/// script draws. Of the trace's own text nothing is in it but numbers.
///
/// ```
/// add_page(&mut page, &recorded, &granules, Some(&blame))?;
/// ```
#[tactic(auto, unfolding(crate::specs::Pages::page_text))]
pub fn add_page(
    to: &mut Vec<u8>,
    recorded: &Recorded,
    granules: &[Drawn],
    blame: Option<&Blame>,
) -> Result<(), AllocError>
    requires { AreOfTrace recorded.now granules.now }
    ensures { OnOk result (to.new.items ≡ to.old.items ++ page_text (front_text STYLE.now) (data_json recorded.now granules.now (option_copied blame.entry)) (back_text LAYOUT.now DRAWING.now MOVING.now DETAILS.now PAGE.now)) }
{
    add_front(to)?;
    add_data(to, recorded, granules, blame)?;
    add_back(to)
}
