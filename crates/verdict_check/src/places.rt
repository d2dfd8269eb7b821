ghost use Rattle.std.specs.Prelude.{◌≡◌, ◌<◌, ◌≤◌, ◌+◌, None, All, length};
ghost use Rattle.record_list.specs.Records.{record_at, IsScanned};
ghost use Rattle.verdict_check.specs.Places.{AreNewestOf, ArePlaces};

use record_list::Found;
use tx_types::Slot;

/// Notes the place of the newest record of each page, in its lowest slot.
pub fn note_newest(list: &[Found], places: &mut [Option<u32>])
    requires pages { All (λ f. f.rec.page < length places.old) list.now }
    requires scanned { IsScanned list.now }
    requires empty { All (λ place. place ≡ None) places.old }
    ensures { ArePlaces list.now places.new }
{
    for at in 0..list.len() {
        note_newer(list, at, places);
    }
}

/// Notes the place of a record, where it is newer than the one that is noted of its page.
fn note_newer(list: &[Found], at: usize, places: &mut [Option<u32>])
    requires within { at < length list.now }
    requires scanned { IsScanned list.now }
    requires page { (record_at list.now at).page < length places.old }
    requires noted { AreNewestOf list.now at places.old }
    ensures noted { AreNewestOf list.now (at + 1) places.new }
    ensures size { length places.new ≡ length places.old }
{
    let Found { slot, rec } = list[at];
    let page = rec.page as usize;
    match places[page] {
        Some(place) if list[place as usize].rec.version >= rec.version => {}
        _ => places[page] = Some(place_in(slot, at)),
    }
}

/// The place of the record in a slot: slots ascend, so that it is not above.
fn place_in(slot: Slot, at: usize) -> u32
    requires { at ≤ slot.0 }
    ensures { result ≡ at }
{
    // For the proof: the range of the number.
    let _number = slot.0;
    at as u32
}
