ghost use Rattle.std.specs.Prelude.{◌≡◌};
ghost use Rattle.mem_flash.specs.Breaking.{due, counted_down, comes_due, read_down};

use flash_model::{Arm, Outcome};

/// The breaks that are to come. The arms of a cut and of a fault count programs, erases, retirements and fires, and
/// that of a bad read counts reads.
#[derive(Clone, Copy, PartialEq, Eq)]
pub struct Armed {
    pub cut: Option<Arm>,
    pub fault: Option<Arm>,
    pub bad_read: Option<u32>,
}

/// Counts an operation. Gives the outcome with which the arm comes due, and the arm is then spent.
pub fn count_down(arm: &mut Option<Arm>) -> Option<Outcome>
    ensures due { result ≡ due arm.old }
    ensures left { arm.new ≡ counted_down arm.old }
{
    let Arm { count, outcome } = (*arm)?;
    if count <= 1 {
        *arm = None;
        return Some(outcome);
    }
    *arm = Some(Arm {
        count: count - 1,
        outcome,
    });
    None
}

/// Counts a read. Tells whether it is the one that is to fail, and the arm is then spent.
pub fn count_read(bad_read: &mut Option<u32>) -> bool
    ensures due { result ≡ comes_due bad_read.old }
    ensures left { bad_read.new ≡ read_down bad_read.old }
{
    let Some(count) = *bad_read else {
        return false;
    };
    let is_next = count <= 1;
    *bad_read = if is_next { None } else { Some(count - 1) };
    is_next
}
