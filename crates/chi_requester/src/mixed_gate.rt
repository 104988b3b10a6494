//! A gate of one of up to four types.

use chi_history::Gate;

/// The gate of a racer, where those of the others are of other types.
#[derive(Drop)]
pub enum MixedGate<G1, G2, G3, G4> {
    One(G1),
    Two(G2),
    Three(G3),
    Four(G4),
}

impl<G1: Gate, G2: Gate, G3: Gate, G4: Gate> Gate for MixedGate<G1, G2, G3, G4> {
    fn pause(&mut self, try_no: u8) {
        match self {
            MixedGate::One(gate) => gate.pause(try_no),
            MixedGate::Two(gate) => gate.pause(try_no),
            MixedGate::Three(gate) => gate.pause(try_no),
            MixedGate::Four(gate) => gate.pause(try_no),
        }
    }
}
