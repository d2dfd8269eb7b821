ghost use Rattle.std.specs.Prelude.{◌≡◌, List, length, map, IfOk, Ok};
ghost use Rattle.tx_types.specs.Config.{checked, shape_of, slots_of};
ghost use Rattle.record_list.specs.Records.{IsScanned};
ghost use Rattle.record_list.specs.SoundList.{IsSoundList};
ghost use Rattle.record_list.specs.declared.found.Found.{Found};
ghost use Rattle.judged_records.specs.IndexState.{IsNoted, IsNotedFrom};
ghost use Rattle.judged_records.specs.Notes.{complete_slots};
ghost use Rattle.version_index.specs.Scanned.{AreScanned};

mod changing;
mod reading;

use crate::counting::count_written;
use crate::filling::{build_tables, close_used, current_versions_of};
use flash_model::Seen;
use record_list::{CommitRule, Found};
use slot_tables::Tables;
use sorted_records::CurrentVersions;
use std::alloc::Global;
use std::marker::{Model, PhantomData};
use tx_types::{Config, Memory};

/// What a device has noted of its flash, and what the commit rule `R` makes of it: the record of each
/// slot, the current version of each page, where its record stands, and which slots are needed. It is
/// seen as what was noted. All its memory is taken when it is made.
#[derive(Drop)]
pub struct Index<R: CommitRule> {
    pub(crate) config: Config,
    pub(crate) tables: Tables,
    pub(crate) mentions: Vec<u64>,
    /// How many pages are not blank.
    pub(crate) written: u32,
    rule: PhantomData<R>,
}

impl<R: CommitRule> Model for Index<R> {
    ghost use Rattle.judged_records.specs.IndexState.{IndexState};

    ghost Value = { IndexState };

    ghost use Rattle.version_index.specs.Tables.{noted_of, IndexInvariant};

    ghost view = { noted_of };

    ghost invariant = { IndexInvariant R.protocol };
}

impl<R: CommitRule> Index<R> {
    /// The tables of slots that read so and hold these records, in the order of their slots. Nothing
    /// is pinned, and no spare is chosen. It is there for who builds on this crate: an opening sorts the
    /// records before.
    pub fn from_scan(
        alloc: Global,
        config: Config,
        seen: &[Seen],
        list: &[Found],
    ) -> Result<Index<R>, Memory>
        requires check { checked config ≡ Ok (shape_of config) }
        requires rule { config.protocol ≡ R.protocol }
        requires seen { length seen.now ≡ slots_of (shape_of config) }
        requires complete { map (λ f. f.slot.0) list.now ≡ complete_slots seen.now }
        requires scanned { IsScanned list.now }
        requires sound { IsSoundList R.protocol list.now config.logical }
        ensures { IfOk result (λ index. IsNotedFrom config seen.now list.now index) }
    {
        let standing = current_versions_of(alloc, list, config.protocol, config.logical)?;
        Index::from_current_versions(alloc, config, seen, &standing)
    }

    /// The tables of records that were put in the order of their names before, with the current versions of their
    /// pages. The list in the order of the slots is no longer needed. The tables may take its place in memory.
    pub fn from_current_versions(
        alloc: Global,
        config: Config,
        seen: &[Seen],
        standing: &CurrentVersions,
    ) -> Result<Index<R>, Memory>
        requires check { checked config ≡ Ok (shape_of config) }
        requires rule { config.protocol ≡ R.protocol }
        requires scan { (list : List Found) × AreScanned R.protocol config seen.now list standing.now }
        requires protocol { standing.now.protocol ≡ config.protocol }
        requires logical { standing.now.logical ≡ config.logical }
        ensures { (list : List Found) → AreScanned R.protocol config seen.now list standing.now →
            IfOk result (λ index. IsNotedFrom config seen.now list index) }
    {
        let Ok(shape) = config.check() else {
            unreachable!();
        };
        let filled = build_tables(alloc, shape, config.logical, seen, standing)?;
        let mentions = filled.mentions;
        let mut tables = filled.tables.finish(alloc)?;
        close_used(&mut tables, seen);
        let written = count_written(&tables, config.logical, filled.discards);
        Ok(Index {
            config,
            tables,
            mentions,
            written,
            rule: PhantomData,
        })
    }

    /// The configuration of the device. Its clause says what holds of all tables, as that of `shape` does for a flash.
    pub fn config(&self) -> Config
        ensures config { result ≡ self.now.config }
        ensures noted { IsNoted R.protocol self.now }
    {
        self.config
    }
}
