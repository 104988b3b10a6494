//! Where a trace stops being explained, as JSON of a page.

ghost use Rattle.std.specs.Prelude.{◌≡◌, ◌++◌, OnOk};
ghost use Rattle.std.specs.Option.{option_copied};
ghost use Rattle.chi_page.specs.Pages.{blame_json, blamed_json};

use crate::granule::add_granule;
use crate::object::add_replies;
use crate::stopped::add_stop;
use chi_text::Part::Text;
use chi_text::add_parts;
use chi_verdict::Blame;
use std::alloc::AllocError;

/// Where a trace stops being explained: the granule, what an answer has of that time, and which responses would be legal.
#[tactic(auto, unfolding(crate::specs::Pages::blame_json))]
fn add_blame(to: &mut Vec<u8>, blame: &Blame) -> Result<(), AllocError>
    ensures { OnOk result (to.new.items ≡ to.old.items ++ blame_json blame.now) }
{
    add_parts(to, &[Text("{\"granule\":")])?;
    add_granule(to, blame.granule)?;
    add_stop(to, &blame.stop)?;
    add_parts(to, &[Text(",\"legal\":")])?;
    add_replies(to, &blame.stop.legal)?;
    add_parts(to, &[Text("}")])
}

/// The same, or null where it does not.
#[tactic(auto, unfolding(crate::specs::Pages::blamed_json))]
pub(crate) fn add_blamed(to: &mut Vec<u8>, blame: Option<&Blame>) -> Result<(), AllocError>
    ensures { OnOk result (to.new.items ≡ to.old.items ++ blamed_json (option_copied blame.entry)) }
{
    match blame {
        Some(blame) => add_blame(to, blame),
        None => add_parts(to, &[Text("null")]),
    }
}
