ghost use Rattle.std.specs.Prelude.{◌≡◌};
ghost use Rattle.flash_model.specs.Firing.{loads_in};
ghost use Rattle.flash_model.specs.Operations.{CanDo, fire};
ghost use Rattle.judged_records.specs.IndexState.{programmed};
ghost use Rattle.die_alloc.specs.BlocksState.{with_slot};
ghost use Rattle.tx_engine.specs.BatchCalls.{CanLoadJob, CanNoteJob, ClearsRegisters, FiresStored, LoadsJob};

use crate::jobs::Job;
use crate::store::Store;
use flash_model::{Broken, Wide};
use page_record::write_spare;
use record_list::CommitRule;

impl<F: Wide, R: CommitRule> Store<F, R> {
    /// Empties all registers of the flash.
    pub(crate) fn clear_registers(&mut self)
        ensures { ClearsRegisters F.state F.registers self.old self.new }
    {
        self.flash.clear();
    }

    /// Loads the program of a record with its page's bytes.
    pub(crate) fn load(&mut self, job: Job, bytes: &[u8])
        requires { CanLoadJob F.state F.registers self.old job bytes.now }
        ensures { LoadsJob F.state F.registers self.old self.new job bytes.now }
    {
        let mut spare_area = [0; 64];
        write_spare(job.rec, self.index.config().protocol, &mut spare_area);
        self.flash.load(job.slot, bytes, &spare_area);
    }

    /// Does all programs that are loaded.
    pub(crate) fn fire(&mut self) -> Result<(), Broken>
        requires { CanDo (F.state self.old.flash).shape (F.state self.old.flash).image
            (fire (loads_in (F.registers self.old.flash))) }
        ensures { FiresStored F.state F.registers self.old self.new result }
    {
        self.flash.fire()
    }

    /// Notes the record of a program that was done.
    pub(crate) fn note(&mut self, job: Job)
        requires { CanNoteJob self.old.noted self.old.table job }
        ensures { self.new ≡ record self.old {
          noted = programmed self.old.noted job.slot.0 job.rec;
          table = with_slot self.old.table job.slot.0;
        } }
    {
        self.index.note_program(job.slot, job.rec);
        self.blocks.note_used(job.slot);
    }
}
