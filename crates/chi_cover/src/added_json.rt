//! How many bins each input added, as JSON.

ghost use Rattle.std.specs.Prelude.{◌≡◌, ◌++◌, OnOk, flat_map};
ghost use Rattle.chi_cover.specs.Json.{added_json, further, number_json, numbers_json};

use chi_text::Part::{Number, Text};
use chi_text::add_parts;
use std::alloc::AllocError;

/// A number, as a text.
#[tactic(auto, unfolding(crate::specs::Json::number_json))]
fn add_number(to: &mut Vec<u8>, number: u64) -> Result<(), AllocError>
    ensures { OnOk result (to.new.items ≡ to.old.items ++ number_json number) }
{
    add_parts(to, &[Text("\""), Number(number), Text("\"")])
}

/// A number after another one.
fn add_further_number(to: &mut Vec<u8>, number: u64) -> Result<(), AllocError>
    ensures { OnOk result (to.new.items ≡ to.old.items ++ further number_json number) }
{
    add_parts(to, &[Text(",")])?;
    add_number(to, number)
}

/// Numbers after another one.
fn add_further_numbers(to: &mut Vec<u8>, numbers: &[u64]) -> Result<(), AllocError>
    ensures { OnOk result (to.new.items ≡ to.old.items ++ flat_map (further number_json) numbers.now) }
{
    for number in numbers {
        add_further_number(to, *number)?;
    }
    Ok(())
}

/// Numbers, one after the other.
#[tactic(auto, unfolding(crate::specs::Json::numbers_json))]
fn add_numbers(to: &mut Vec<u8>, numbers: &[u64]) -> Result<(), AllocError>
    ensures { OnOk result (to.new.items ≡ to.old.items ++ numbers_json numbers.now) }
{
    let Some((first, rest)) = numbers.split_first() else {
        return Ok(());
    };
    add_number(to, *first)?;
    add_further_numbers(to, rest)
}

/// The member that says how many bins each input added, after another one.
#[tactic(auto, unfolding(crate::specs::Json::added_json))]
pub(crate) fn add_added(to: &mut Vec<u8>, added: &[u64]) -> Result<(), AllocError>
    ensures { OnOk result (to.new.items ≡ to.old.items ++ added_json added.now) }
{
    add_parts(to, &[Text(",\"added\":[")])?;
    add_numbers(to, added)?;
    add_parts(to, &[Text("]")])
}
