ghost use Rattle.std.specs.Prelude.{◌≡◌};
ghost use Rattle.drive_gen.specs.Generator.{high_bits, next_state};
ghost use Rattle.drive_gen.specs.Kinds.{kind_of};

use crate::generator::Generator;

/// What becomes of a transaction.
#[derive(Clone, Copy, PartialEq, Eq)]
pub enum Kind {
    /// A cut is armed before it, and it is finished.
    Cut,
    /// It is aborted.
    Abort,
    /// It is finished.
    Finish,
}

impl Kind {
    /// The kind of a number that is drawn.
    pub fn draw(generator: &mut Generator) -> Kind
        ensures kind { result ≡ kind_of (high_bits (next_state generator.old.state) 50) }
        ensures state { generator.new.state ≡ next_state generator.old.state }
    {
        match generator.draw(50) {
            0 => Kind::Cut,
            1..=5 => Kind::Abort,
            _ => Kind::Finish,
        }
    }
}
