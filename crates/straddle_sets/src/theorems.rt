//! What holds of records that straddle and of those that are responsible. The functions do nothing:
//! each is there for what it ensures.
ghost use Rattle.std.specs.Prelude.{◌≡◌, ◌↔◌, ◌<◌, ◌≤◌, ◌&&◌, ℕ, nat_lt, is_some, List};
ghost use Rattle.std.specs.List.{list_any};
ghost use Rattle.tx_types.specs.declared.config.Protocol.TheVariants.{Bpcc};
ghost use Rattle.tx_types.specs.declared.record.Link.{Link};
ghost use Rattle.tx_types.specs.declared.record.Rec.{Rec};
ghost use Rattle.record_list.specs.Current.{answers_for, cur, is_held, is_loose, responsible};
ghost use Rattle.record_list.specs.Records.{newest, IsScanned};
ghost use Rattle.record_list.specs.SoundList.{IsSoundList};
ghost use Rattle.record_list.specs.Verdict.{straddling};
ghost use Rattle.record_list.specs.declared.found.Found.{Found};
ghost use Rattle.straddle_sets.specs.Responsible.{responsible_index};

/// Whether a record of a sound list straddles a name goes by the current version of its page. Below
/// it, the greatest straddling version is that of the responsible record; nothing straddles the
/// current version; and above it, all is straddled that is below the newest version.
pub fn straddlers_by_place()
    ensures below { (list : List Found) (logical : ℕ) (name : Link) → IsScanned list →
        IsSoundList Bpcc list logical → name.version < cur Bpcc list logical name.page →
        straddling list name ≡ responsible Bpcc list logical name }
    ensures current { (list : List Found) (logical : ℕ) (name : Link) → IsScanned list →
        IsSoundList Bpcc list logical → name.version ≡ cur Bpcc list logical name.page →
        straddling list name ≡ 0 }
    ensures above { (list : List Found) (logical : ℕ) (name : Link) → IsScanned list →
        IsSoundList Bpcc list logical → cur Bpcc list logical name.page < name.version →
        (straddling list name ≡ 0) ↔ (newest list name.page ≤ name.version) }
{}

/// A record has a responsible one exactly where it is loose and some version is responsible for its
/// link. A record is held exactly where it is responsible for some record.
pub fn responsible_records()
    ensures some { (list : List Found) (logical : ℕ) (r : Rec) →
        is_some (responsible_index list logical r)
        ≡ (is_loose Bpcc list logical r && nat_lt 0 (responsible Bpcc list logical r.next)) }
    ensures held { (list : List Found) (logical : ℕ) (r : Rec) →
        is_held Bpcc list logical r
        ≡ list_any (λ other. answers_for Bpcc list logical r other.rec) list }
{}
