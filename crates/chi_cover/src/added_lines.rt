//! The lines of how many bins each input added.

ghost use Rattle.std.specs.Prelude.{◌≡◌, ◌++◌, OnOk, map};
ghost use Rattle.chi_cover.specs.AddedLines.{added_line, added_lines, each_added};

use chi_text::Part::{Number, Text};
use chi_text::add_parts;
use std::alloc::AllocError;

/// The line of how many bins the input of a path added.
#[tactic(auto, unfolding(crate::specs::AddedLines::added_line))]
fn add_line(to: &mut Vec<u8>, path: &str, number: u64) -> Result<(), AllocError>
    ensures { OnOk result (to.new.items ≡ to.old.items ++ added_line path.now number) }
{
    add_parts(to, &[Text("added by ")])?;
    to.extend_from_slice(path.as_bytes())?;
    add_parts(to, &[Text(": "), Number(number), Text("\n")])
}

/// The line of each number, with the path at its place.
fn add_each_line(to: &mut Vec<u8>, paths: &[&str], added: &[u64]) -> Result<(), AllocError>
    ensures { OnOk result (to.new.items ≡ to.old.items ++ each_added added.now (map (λ path. path.now) paths.now)) }
{
    let mut rest = added;
    for path in paths {
        let Some((number, others)) = rest.split_first() else {
            return Ok(());
        };
        add_line(to, path, *number)?;
        rest = others;
    }
    Ok(())
}

/// Adds a line for each input of two or more, by its path: how many bins it added. Of fewer nothing is added.
///
/// ```
/// add_added_lines(&mut text, &["first.json", "next.json"], &[7, 1])?; // added by first.json: 7
/// ```
#[tactic(auto, unfolding(crate::specs::AddedLines::added_lines))]
pub fn add_added_lines(to: &mut Vec<u8>, paths: &[&str], added: &[u64]) -> Result<(), AllocError>
    ensures { OnOk result (to.new.items ≡ to.old.items ++ added_lines added.now (map (λ path. path.now) paths.now)) }
{
    if paths.len() < 2 {
        return Ok(());
    }
    add_each_line(to, paths, added)
}
