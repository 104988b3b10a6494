//! How many states may follow a verdict, and as how many those count that come later.

ghost use Rattle.std.specs.Prelude.{◌≡◌, ◌+◌, ◌-◌, ◌*◌, ◌/◌, ◌^◌, ◌<◌, ◌≤◌, max, min};

// How many times the states of a verdict may be looked at after it, but no more than so many; and beside them so many for each
// operation, and so many in all.
const TIMES: u64 = 16;

const MOST: u64 = 2_000_000;

const EACH: u64 = 64;

const LEAST: u64 = 100_000;

// Where many operations were pending at once a state takes longer: fewer may follow, by as many times as these go into their number.
const FEW_PENDING: u64 = 48;

// From then on a state counts as a quarter of what a search may still look at, and once that is no more than this as one of so
// many parts of it.
const FEW_LEFT: u64 = 4096;

const PARTS: u64 = 64;

/// How many states may be looked at after a verdict of so many operations, which took so many states, where so many were pending at
/// once.
pub(crate) fn states_after(states: u64, operations: usize, pending: usize) -> u64
    ensures { result ≡ min (min (states * 16) 2000000 + operations * 64 + 100000) (2 ^ 64 - 1) / max 1 (pending / 48) }
{
    let of_states = states.saturating_mul(TIMES).min(MOST);
    let of_operations = (operations as u64).saturating_mul(EACH);
    let all = of_states
        .saturating_add(of_operations)
        .saturating_add(LEAST);
    all / (pending as u64 / FEW_PENDING).max(1)
}

/// As how many a state counts late, of as many as are left.
pub(crate) fn late(left: u64) -> u64
    requires { 0 < left }
    ensures some { 0 < result }
    ensures within { result ≤ left }
{
    if left > FEW_LEFT {
        left / 4
    } else {
        (left / PARTS).max(1)
    }
}
