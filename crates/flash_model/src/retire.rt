ghost use Rattle.std.specs.Prelude.{◌≡◌, ◌<◌, ◌≤◌, IsSomeAnd};
ghost use Rattle.tx_types.specs.Config.{blocks_of};
ghost use Rattle.flash_model.specs.Retiring.{MayRetire, Retires};

use crate::{Broken, Flash};
use tx_types::Block;

/// The most blocks that a flash may allow to be retired.
pub const MAX_ALLOWANCE: u32 = 1024;

/// A flash that can replace a block by a fresh one, as often as it allows. It tells how often that is.
pub trait Retire: Flash {
    /// How many blocks may be retired in all. It stays.
    fn allowance(&self) -> u32
        ensures { IsSomeAnd (Self.state self.now).extras (λ extras. result ≡ extras.allowance) };

    /// How many blocks were retired, which is never more than may be.
    fn retired(&self) -> u32
        ensures told { IsSomeAnd (Self.state self.now).extras (λ extras. result ≡ extras.retired) }
        ensures within { IsSomeAnd (Self.state self.now).extras
            (λ extras. extras.retired ≤ extras.allowance) };

    /// Puts a fresh block in the place of this one: all its slots are blank, and one block more is retired.
    /// Neither a program nor an erase is counted. A broken call may have done nothing, or all of it.
    fn retire(&mut self, block: Block) -> Result<(), Broken>
        requires exists { block.0 < blocks_of (Self.state self.old).shape }
        requires left { MayRetire (Self.state self.old) }
        ensures { Retires (Self.state self.old) (Self.state self.new) block.0 result };
}
