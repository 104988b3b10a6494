//! What a run is written as.

/// What a run is written as, as JSON: as a trace, which says of each request when it was under way, or as a transcript.
#[derive(Clone, Copy)]
pub(crate) enum RunForm {
    Trace,
    Transcript,
}
