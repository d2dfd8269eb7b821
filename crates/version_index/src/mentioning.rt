ghost use Rattle.std.specs.Prelude.{◌≡◌, ℕ, ◌<◌, ◌==◌, if◌then◌else◌, max, length, slice_index_or};
ghost use Rattle.judged_records.specs.IndexState.{raised, raised_to};
ghost use Rattle.version_index.specs.Filling.{IsMentioned};

use tx_types::{Link, Rec};

/// Raises the greatest mentions of the pages that a record names, where they exist.
#[inline(always)]
pub fn mention(mentions: &mut Vec<u64>, rec: &Rec)
    ensures { IsMentioned mentions.old.items mentions.new.items rec.now }
{
    raise_existing(mentions, rec.name());
    raise_existing(mentions, rec.next);
}

/// Raises the greatest mention of a page to that of a name, where the page exists.
#[inline(always)]
fn raise_existing(mentions: &mut Vec<u64>, name: Link)
    ensures size { length mentions.new.items ≡ length mentions.old.items }
    ensures raised { (page : ℕ) → page < length mentions.old.items →
        slice_index_or mentions.new.items page 0
        ≡ max (slice_index_or mentions.old.items page 0)
        (if name.page == page then name.version else 0) }
{
    if (name.page as usize) < mentions.len() {
        raise_to(mentions, name);
    }
}

/// Raises the greatest mentions to those of a record.
pub fn raise(mentions: &mut Vec<u64>, rec: Rec)
    requires page { rec.page < length mentions.old.items }
    requires next { rec.next.page < length mentions.old.items }
    ensures { mentions.new.items ≡ raised rec mentions.old.items }
{
    raise_to(mentions, rec.name());
    raise_to(mentions, rec.next);
}

/// Raises the greatest mention of a page to that of a name.
fn raise_to(mentions: &mut Vec<u64>, name: Link)
    requires { name.page < length mentions.old.items }
    ensures { mentions.new.items ≡ raised_to name mentions.old.items }
{
    let at = name.page as usize;
    mentions[at] = mentions[at].max(name.version);
}
