ghost use Rattle.std.specs.Prelude.{◌≡◌, ◌/◌, ◌<◌};

use std::marker::Model;

/// A number by which small ones are divided, with its reciprocal, so that a division is a
/// multiplication. The block of a slot is found so, many times in a step.
#[derive(Drop)]
pub struct Reciprocal {
    by: u32,
    /// 2 ^ 32 divided by it, and one more.
    reciprocal: u64,
}

impl Model for Reciprocal {
    ghost use Rattle.std.specs.Prelude.{ℕ};

    ghost Value = { ℕ };

    ghost use Rattle.dense_tables.specs.Reciprocals.{divisor_of, ReciprocalInvariant};

    ghost view = { divisor_of };

    ghost invariant = { ReciprocalInvariant };
}

impl Reciprocal {
    /// Divides by this number.
    pub fn new(by: u32) -> Reciprocal
        requires { 0 < by }
        ensures { result ≡ by }
    {
        Reciprocal {
            by,
            reciprocal: (1 << 32) / u64::from(by) + 1,
        }
    }

    /// The number.
    #[inline(always)]
    pub fn get(&self) -> u32
        ensures number { result ≡ self.now }
        ensures some { 0 < result }
    {
        self.by
    }

    /// How many times it goes into another one.
    #[inline(always)]
    pub fn quotient(&self, of: u32) -> u32
        requires { of < 65536 }
        ensures { result ≡ of / self.now }
    {
        ((u64::from(of) * self.reciprocal) >> 32) as u32
    }
}
