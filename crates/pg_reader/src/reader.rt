//! What a thread goes on with while others search.
ghost use Rattle.std.specs.Prelude.{◌≡◌, ◌<◌, ℕ, IsTrue, false};

/// Goes on, in small steps, while others search: it reads what they search next, for example.
///
/// `F` is the type of what it works on. Contracts see what each step keeps, and nothing else of it.
pub trait Reader<F> {
    /// A step may be made.
    ghost ready: { Self → F → Type 0 };

    /// What the steps keep: the reader and what it works on, as they were and as they are.
    ghost reaches: { Self → F → Self → F → Type 0 };

    /// How many more steps may do something.
    ghost left: { Self → ℕ };

    /// Makes one more step, which should be short and wait for nobody: no result is taken while it lasts. `false` says
    /// that there is nothing to do for now, which each reader has to say in the end. It is then asked again and again,
    /// and should answer at once.
    fn step(&mut self, from: &mut F) -> bool
        requires { ready self.old from.old }
        ensures ready { ready self.new from.new }
        ensures reaches { (reader : Self) → (files : F) →
            reaches reader files self.old from.old → reaches reader files self.new from.new }
        ensures ends { IsTrue result → left self.new < left self.old };
}

/// A reader that has nothing to do, whatever it is given.
#[derive(Clone, Copy, Drop)]
pub struct NothingToRead;

impl<F> Reader<F> for NothingToRead {
    ghost ready = { λ _ _. Unit {0} };

    ghost reaches = { λ reader from reader' from'. (reader' ≡ reader) × (from' ≡ from) };

    ghost left = { λ _. 0 };

    fn step(&mut self, _from: &mut F) -> bool
        ensures idle { result ≡ false }
        ensures same { (self.new ≡ self.old) × (_from.new ≡ _from.old) }
    {
        false
    }
}
