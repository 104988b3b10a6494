//! What each line of an input tells.

ghost use Rattle.std.specs.Prelude.{◌≡◌};
ghost use Rattle.chi_watch_text.specs.LineTold.{effect_of};

/// Whether a request that was answered by an error took effect.
///
/// - `Unknown`: it may have, so it stands in an order or it does not.
/// - `None`: it took none, as the design promises.
///
/// Source: Arm IHI 0050 Issue B, error handling, which leaves that to the design.
#[derive(Clone, Copy, Debug, PartialEq, Eq)]
pub enum ErrorEffect {
    Unknown,
    None,
}

/// What each line of an input tells.
///
/// - `Events`: an event.
/// - `Flits`: a flit at a home's port, or an event of no request: a word, bytes of which nothing is known, or the end.
/// - `PointedFlits`: the same, or the point of a request. Each request is told at its point.
///
/// ```
/// let format = LineFormat::Flits { errors: ErrorEffect::Unknown };
/// let told = read_operations(alloc, &mut reader, format)?;
/// ```
#[derive(Clone, Copy, Debug, PartialEq, Eq)]
pub enum LineFormat {
    Events,
    Flits { errors: ErrorEffect },
    PointedFlits { errors: ErrorEffect },
}

/// What an error says of its request.
pub(crate) fn effect_of(format: LineFormat) -> ErrorEffect
    ensures { result ≡ effect_of format }
{
    match format {
        LineFormat::Events => ErrorEffect::Unknown,
        LineFormat::Flits { errors } | LineFormat::PointedFlits { errors } => errors,
    }
}
