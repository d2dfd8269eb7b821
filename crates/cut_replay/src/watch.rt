ghost use Rattle.std.specs.Prelude.{◌≡◌, ℕ, List, [], ◌∷◌, Option, OnOk, OnErr};
ghost use Rattle.host_protocol.specs.Replies.{text_of};
ghost use Rattle.flash_model.specs.Flash.{FlashState};
ghost use Rattle.flash_model.specs.Operations.{moment_of};
ghost use Rattle.cut_replay.specs.Watching.{ToldReply, Grew};

use flash_model::Flash;
use host_protocol::Reply;
use tx_types::Memory;

/// Who is told each reply of a run as it is given, and is lent the flash as it then stands.
pub trait Watch<F: Flash> {
    /// The texts of the replies so far, where it tells them.
    ghost text: { Self → Option (List ℕ) };

    /// Each reply's text with what the flash was, where it tells these.
    ghost kept: { Self → Option (List ToldReply) };

    /// The whole flash at each reply, where it tells these.
    ghost flashes: { Self → Option (List FlashState) };

    /// Takes a reply and what the flash is. After `Memory` nothing has changed.
    fn tell(&mut self, flash: &F, reply: &Reply) -> Result<(), Memory>
        ensures text { OnOk result (Grew (text self.old) (text self.new) (text_of reply.now)) }
        ensures kept { OnOk result (Grew (kept self.old) (kept self.new)
            (record { text = text_of reply.now; moment = moment_of (F.state flash.now) } ∷ [])) }
        ensures flashes { OnOk result (Grew (flashes self.old) (flashes self.new) (F.state flash.now ∷ [])) }
        ensures err { OnErr result ((text self.new ≡ text self.old) × (kept self.new ≡ kept self.old)
            × (flashes self.new ≡ flashes self.old)) };
}
