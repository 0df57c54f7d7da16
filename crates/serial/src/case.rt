//! Enums whose cases have numbers.
ghost use Rattle.std.specs.Prelude.{◌≡◌, ℕ, Option};
ghost use Rattle.serial.specs.Numbers.{Inverse};

/// A case of such an enum: its number, and the case that a number leads to.
pub trait Case: Copy {
    ghost number_of: { Self → ℕ };

    ghost case_of: { ℕ → Option Self };

    /// The number of the case, which leads back to it.
    fn number(self) -> u8
        ensures number { result ≡ number_of self }
        ensures inverse { Inverse number_of case_of };
}
