//! Laws of the trace of a run, as a checker of traces reads it. Each function does nothing: its contract is the law, for proofs that
//! call it.
#![tactic(auto)]

ghost use Rattle.chi_run_laws.specs.RunLaws.{RunIsExplained, RunIsReadInOrder, TraceOfRunIsRead};

/// The text of the trace of a script's run is a trace, which reads as the operations and the refusals of the run.
pub fn trace_of_run_is_read()
    ensures { TraceOfRunIsRead }
{}

/// What is recorded of that trace has the operations in the order of the script.
pub fn run_is_read_in_order()
    ensures { RunIsReadInOrder }
{}

/// What a run did can be explained.
pub fn run_is_explained()
    ensures { RunIsExplained }
{}
