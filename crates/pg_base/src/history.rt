//! A list of what happened that takes no memory.
ghost use Rattle.std.specs.Prelude.{◌≡◌, List, [], ◌∷◌, ◌++◌};
ghost use Rattle.std.specs.Borrow.{ftrue};

use std::marker::{Model, PhantomData};

/// A list that contracts alone can read, as the bytes that a sink took or the failures that it met.
/// It has no bytes, and its methods do nothing when they run.
///
/// Contracts see its values as `items`, the oldest first. The list holds what the code gives it: it
/// tells of the world only where a contract also ties it to real data, as `Out` does by the bytes of
/// its writer.
#[derive(Drop)]
pub struct History<T> {
    kind: PhantomData<T>,
    pub ghost items: { List T },
}

impl<T> Model for History<T> {
    ghost also_owns = { λ _. ftrue };
}

// It owns nothing.
unsafe impl<T: Send> Send for History<T> {}

unsafe impl<T: Sync> Sync for History<T> {}

impl<T> History<T> {
    /// The empty list.
    #[inline(always)]
    pub fn new() -> History<T>
        ensures { result.items ≡ [] }
    {
        History { kind: PhantomData }
    }

    /// Adds a value at the end.
    #[inline(always)]
    pub fn push(&mut self, value: &T)
        ensures { self.new.items ≡ self.old.items ++ value.now ∷ [] }
    {
        *self = self.with(value);
    }

    /// Adds values at the end, in their order.
    #[inline(always)]
    pub fn extend(&mut self, values: &[T])
        ensures { self.new.items ≡ self.old.items ++ values.now }
    {
        *self = self.with_all(values);
    }

    // The proof of each chooses the list of the value that it makes.
    #[inline(always)]
    fn with(&self, _value: &T) -> History<T>
        ensures { result.items ≡ self.now.items ++ _value.now ∷ [] }
    {
        History { kind: PhantomData }
    }

    #[inline(always)]
    fn with_all(&self, _values: &[T]) -> History<T>
        ensures { result.items ≡ self.now.items ++ _values.now }
    {
        History { kind: PhantomData }
    }
}
