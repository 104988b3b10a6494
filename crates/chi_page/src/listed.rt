//! Texts one after the other.

ghost use Rattle.std.specs.Prelude.{◌≡◌, ◌++◌, OnOk};
ghost use Rattle.chi_page.specs.Listed.{before};

use chi_text::Part::Text;
use chi_text::add_parts;
use std::alloc::AllocError;

/// What stands before the text with this number, counted from 0: what stands between each two.
///
/// ```
/// add_between(&mut text, ",", number)?;
/// ```
pub fn add_between(to: &mut Vec<u8>, between: &'static str, number: usize) -> Result<(), AllocError>
    ensures { OnOk result (to.new.items ≡ to.old.items ++ before between.now number) }
{
    if number == 0 {
        return Ok(());
    }
    add_parts(to, &[Text(between)])
}
