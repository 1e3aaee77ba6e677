//! Chains of strings that may have one key.
ghost use Rattle.std.specs.Prelude.{◌≡◌, ◌<◌, ◌++◌, ◌∷◌, [], List, ℕ, length, IfOk, OnOk};
ghost use Rattle.pg_strings.specs.Keys.{AreChains};

use std::alloc::{AllocError, Allocator, Global};

/// How many chains there are.
pub(crate) const CHAINS: usize = 8_192;

/// Chains of strings that may have one key. A link is one more than the place of a string, or 0.
#[derive(Drop)]
pub(crate) struct Chains<A: Allocator = Global> {
    /// For each chain the link to its last string.
    pub first: Vec<usize, A>,
    /// For each string the link to the one before it in its chain.
    pub next: Vec<usize, A>,
}

impl<A: Allocator> Chains<A> {
    /// Chains without a string.
    pub fn new(alloc: A) -> Result<Chains<A>, AllocError>
    where
        A: Copy,
        ensures { IfOk result (λ chains. AreChains chains.first.items chains.next.items []) }
    {
        let first = vec![in alloc; 0usize; CHAINS]?;
        Ok(Chains {
            first,
            next: Vec::new(alloc),
        })
    }

    /// Puts the next string into a chain.
    pub fn push(&mut self, chain: usize) -> Result<(), AllocError>
        requires chain { chain < 8192 }
        requires count { length self.old.first.items ≡ 8192 }
        ensures { OnOk result ((homes : List ℕ) → AreChains self.old.first.items self.old.next.items homes
            → AreChains self.new.first.items self.new.next.items (homes ++ chain ∷ [])) }
    {
        let count = self.next.len();
        let before = self.first[chain];
        self.next.push(before)?;
        self.first[chain] = count + 1;
        Ok(())
    }
}
