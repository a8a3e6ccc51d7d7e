//! What is called around each command of a domain. It has no meaning in any contract.

/// Is told of each command, so that a test can hold a domain back.
pub trait Gate {
    /// Called before the first turn of the command with this index of this domain.
    fn before(&self, domain: u32, index: u32);

    /// Called once the command's reply is kept.
    fn after(&self, domain: u32, index: u32);
}

/// The gate that does nothing.
#[derive(Clone, Copy, Debug)]
pub struct NoGate;

impl Gate for NoGate {
    fn before(&self, _domain: u32, _index: u32) {}

    fn after(&self, _domain: u32, _index: u32) {}
}
