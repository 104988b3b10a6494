//! Whether operations can be searched.

ghost use Rattle.std.specs.Prelude.{◌↔◌, IsTrue};
ghost use Rattle.chi_search.specs.Searchable.{AreSorted, AreWithin};

use chi_fields::ADDRESSES;
use chi_trace::Operation;

/// Whether the operations stand in the order of their ends, none ends before it starts, and all are within 2^52 bytes.
///
/// ```
/// if !are_searchable(&ops) {
///     sort(&mut ops)?;
/// }
/// ```
pub fn are_searchable(ops: &[Operation]) -> bool
    ensures { IsTrue result ↔ (AreSorted ops.now × AreWithin ops.now) }
{
    let mut before = 0;
    for op in ops {
        let length = op.access.len() as u64;
        if op.end < before || op.end < op.start || op.access.addr() > ADDRESSES - length {
            return false;
        }
        before = op.end;
    }
    true
}
