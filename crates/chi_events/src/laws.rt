//! Laws of events. Each function does nothing: its contract is the law, for proofs that call it.

ghost use Rattle.chi_events.specs.EventLaws.{OperationsAreTold};

/// The operations that events tell are a trace: those that had ended, and those that are still open.
pub fn operations_are_told()
    ensures { OperationsAreTold }
{}
