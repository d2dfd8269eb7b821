ghost use Rattle.std.specs.Prelude.{◌≡◌, ◌<◌, ◌≤◌, ◌+◌, ℕ, All, Some, if◌then◌else◌, nat_le, length, slice_set};
ghost use Rattle.record_list.specs.Records.{record_at};
ghost use Rattle.sorted_records.specs.Orbits.{IsEnd, IsRound};
ghost use Rattle.sorted_records.specs.SortedRecords.{link_graph};
ghost use Rattle.verdict_check.specs.Places.{IsNewestAt};
ghost use Rattle.verdict_check.specs.WalkEnds.{walk_end_at, IsWalkEnd, AreWalkEnds};
ghost use Rattle.verdict_check.specs.declared.walk_end.WalkEnd.TheVariants.{Ends, Long};

use crate::records::Records;
use crate::walk_end::WalkEnd;

/// The walk end from the newest record of a page, which stands at this place. What is known of walk ends is looked up;
/// what is found is noted, of each page on the way.
pub fn find_walk_end(
    records: &Records,
    courses: &mut [Option<WalkEnd>],
    logical: u32,
    place: u32,
) -> WalkEnd
    requires logical { logical ≤ 65536 }
    requires pages { All (λ f. f.rec.page < length courses.old) records.now.list.now }
    requires place { place < length records.now.list.now }
    requires newest { IsNewestAt records.now.list.now place }
    requires known { AreWalkEnds records.now.list.now logical courses.old }
    ensures course { IsWalkEnd records.now.list.now logical place result }
    ensures known { AreWalkEnds records.now.list.now logical courses.new }
    ensures size { length courses.new ≡ length courses.old }
{
    let page = records.list[place as usize].rec.page;
    if let Some(course) = courses[page as usize] {
        return course;
    }
    let course = find(records, courses, logical, place);
    match course {
        WalkEnd::Ends { after, at } => note_ending(records, courses, logical, place, after, at),
        WalkEnd::Round { links } => note_round(records, courses, logical, place, links),
        WalkEnd::Long => courses[page as usize] = Some(course),
    }
    course
}

/// What is known of the walk end from the newest record of a page.
fn known_walk_end(courses: &[Option<WalkEnd>], page: u32) -> Option<WalkEnd>
    ensures { result ≡ walk_end_at courses.now page }
{
    courses.get(page as usize).copied().flatten()
}

/// Finds the walk end from a newest record. It goes on with what is known to come to an end.
fn find(records: &Records, courses: &[Option<WalkEnd>], logical: u32, place: u32) -> WalkEnd
    requires logical { logical ≤ 65536 }
    requires pages { All (λ f. f.rec.page < length courses.now) records.now.list.now }
    requires place { place < length records.now.list.now }
    requires newest { IsNewestAt records.now.list.now place }
    requires known { AreWalkEnds records.now.list.now logical courses.now }
    ensures { IsWalkEnd records.now.list.now logical place result }
{
    let mut at = place;
    for taken in 0..logical + 1 {
        let Some(next) = records.next(at) else {
            return WalkEnd::Ends { after: taken, at };
        };
        if next == place {
            return WalkEnd::Round { links: taken + 1 };
        }
        let page = records.list[next as usize].rec.page;
        if let Some(WalkEnd::Ends { after, at }) = known_walk_end(courses, page) {
            return ending(logical, taken + 1 + after, at);
        }
        at = next;
    }
    WalkEnd::Long
}

/// The walk end of a walk that comes to an end after this many links.
fn ending(logical: u32, after: u32, at: u32) -> WalkEnd
    ensures { result ≡ (if nat_le after logical then Ends after at else Long) }
{
    if after <= logical {
        WalkEnd::Ends { after, at }
    } else {
        WalkEnd::Long
    }
}

/// Notes the walk ends on the way from a newest record to an end, as far as they are not known.
fn note_ending(
    records: &Records,
    courses: &mut [Option<WalkEnd>],
    logical: u32,
    place: u32,
    after: u32,
    end: u32,
)
    requires few { after ≤ logical }
    requires logical { logical ≤ 65536 }
    requires pages { All (λ f. f.rec.page < length courses.old) records.now.list.now }
    requires place { place < length records.now.list.now }
    requires newest { IsNewestAt records.now.list.now place }
    requires end { IsEnd (link_graph records.now.list.now) place after end }
    requires known { AreWalkEnds records.now.list.now logical courses.old }
    ensures known { AreWalkEnds records.now.list.now logical courses.new }
    ensures size { length courses.new ≡ length courses.old }
{
    let mut at = place;
    for taken in 0..after + 1 {
        let page = records.list[at as usize].rec.page;
        if courses[page as usize].is_some() {
            return;
        }
        courses[page as usize] = Some(WalkEnd::Ends {
            after: after - taken,
            at: end,
        });
        let Some(next) = records.next(at) else {
            return;
        };
        at = next;
    }
}

/// Notes the walk ends of the newest records of a cycle, from one of them on.
fn note_round(
    records: &Records,
    courses: &mut [Option<WalkEnd>],
    logical: u32,
    place: u32,
    links: u32,
)
    requires few { links ≤ logical + 1 }
    requires logical { logical ≤ 65536 }
    requires pages { All (λ f. f.rec.page < length courses.old) records.now.list.now }
    requires place { place < length records.now.list.now }
    requires newest { IsNewestAt records.now.list.now place }
    requires round { IsRound (link_graph records.now.list.now) place links }
    requires known { AreWalkEnds records.now.list.now logical courses.old }
    ensures known { AreWalkEnds records.now.list.now logical courses.new }
    ensures size { length courses.new ≡ length courses.old }
{
    let mut at = place;
    for _taken in 0..links {
        let page = records.list[at as usize].rec.page;
        courses[page as usize] = Some(WalkEnd::Round { links });
        let Some(next) = records.next(at) else {
            return;
        };
        at = next;
    }
}
