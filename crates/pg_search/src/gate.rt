//! Calls around each search.

/// What is called around the search of each block, by the thread that searches it. It is for tests.
///
/// Numbers are those of the blocks in their round, from 0.
pub trait Gate {
    /// Called before the block is searched.
    fn before(&self, number: u32);

    /// Called once it was searched, also where a request for memory was refused.
    fn after(&self, number: u32);
}

/// A gate that does nothing.
#[derive(Clone, Copy, Drop)]
pub struct FreeGate;

impl Gate for FreeGate {
    fn before(&self, _number: u32) {}

    fn after(&self, _number: u32) {}
}
