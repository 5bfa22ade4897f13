//! Values that are named by numbers.

ghost use Rattle.std.specs.Prelude.{◌≡◌};

/// A value that is named by a number.
pub trait Keyed: Drop {
    ghost use Rattle.std.specs.Prelude.{ℕ};

    ghost key: { Self → ℕ };

    /// The number.
    fn key(&self) -> u32
        ensures { result ≡ key self.now };
}

impl Keyed for u32 {
    ghost key = { λ k. k };

    fn key(&self) -> u32 {
        *self
    }
}
