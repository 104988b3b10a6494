//! The lines that were taken, where they are kept.

ghost use Rattle.std.specs.Prelude.{◌≡◌, [], IfSome, OnOk, is_some};
ghost use Rattle.chi_watch_text.specs.Kept.{KeepsLine};

use std::alloc::{AllocError, Global};

/// No line, where lines are kept.
pub(crate) fn nothing_kept(alloc: Global, keep_lines: bool) -> Option<Vec<u8>>
    ensures keeps { is_some result ≡ keep_lines }
    ensures empty { IfSome result (λ kept. kept.items ≡ []) }
{
    if keep_lines {
        Some(Vec::new(alloc))
    } else {
        None
    }
}

/// Keeps a line, where lines are kept.
pub(crate) fn keep_line(kept: &mut Option<Vec<u8>>, line: &[u8]) -> Result<(), AllocError>
    ensures { OnOk result (KeepsLine kept.old line.now kept.new) }
{
    if let Some(kept) = kept {
        kept.extend_from_slice(line)?;
    }
    Ok(())
}
