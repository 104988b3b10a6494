//! The line of the other granules of a line of 64 bytes that no order explains.

ghost use Rattle.std.specs.Prelude.{◌≡◌, ◌++◌, OnOk, flat_map};
ghost use Rattle.chi_answer.specs.BesideLine.{address_word, all_line, beside_line};

use chi_text::Part::{Address, Text};
use chi_text::add_parts;
use std::alloc::AllocError;

/// A granule, by its address.
fn add_address(to: &mut Vec<u8>, granule: u64) -> Result<(), AllocError>
    ensures { OnOk result (to.new.items ≡ to.old.items ++ address_word granule) }
{
    add_parts(to, &[Text(" "), Address(granule.wrapping_mul(8))])
}

/// Each of them.
fn add_each(to: &mut Vec<u8>, beside: &[u64]) -> Result<(), AllocError>
    ensures { OnOk result (to.new.items ≡ to.old.items ++ flat_map address_word beside.now) }
{
    for granule in beside {
        add_address(to, *granule)?;
    }
    Ok(())
}

/// The line of all of them.
fn add_all(to: &mut Vec<u8>, beside: &[u64]) -> Result<(), AllocError>
    ensures { OnOk result (to.new.items ≡ to.old.items ++ all_line beside.now) }
{
    add_parts(
        to,
        &[Text("  also not explained in this line of 64 bytes:")],
    )?;
    add_each(to, beside)?;
    add_parts(to, &[Text("\n")])
}

/// Adds the line, where there are any.
pub(crate) fn add_beside(to: &mut Vec<u8>, beside: &[u64]) -> Result<(), AllocError>
    ensures { OnOk result (to.new.items ≡ to.old.items ++ beside_line beside.now) }
{
    if beside.is_empty() {
        return Ok(());
    }
    add_all(to, beside)
}
