//! Where a home lets its caller look in before it steps.

/// A pause before each try of a home's step: a test holds one requester here while others go on.
pub trait Gate {
    /// Called before the try of this number, counted from 1.
    fn pause(&mut self, try_no: u8);
}

/// The gate that is always open.
#[derive(Clone, Copy, Debug, Default, Drop)]
pub struct NoGate;

impl Gate for NoGate {
    fn pause(&mut self, _try_no: u8) {}
}
