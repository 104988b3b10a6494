//! A gate, or none.

use chi_history::Gate;

/// The gate of a racer who may have none, and then works without a pause.
#[derive(Drop)]
pub(crate) struct OptionalGate<G> {
    pub(crate) gate: Option<G>,
}

impl<G: Gate> Gate for OptionalGate<G> {
    fn pause(&mut self, try_no: u8) {
        if let Some(gate) = &mut self.gate {
            gate.pause(try_no);
        }
    }
}
