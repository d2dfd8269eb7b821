ghost use Rattle.std.specs.Prelude.{None, ◌≡◌, ◌<◌, ◌≤◌, All, IfOk, IfErr, length};
ghost use Rattle.tx_types.specs.declared.config.Protocol.TheVariants.{Bpcc};
ghost use Rattle.record_list.specs.Records.{IsScanned};
ghost use Rattle.verdict_report.specs.Report.{pages, report as wanted};
ghost use Rattle.verdict_check.specs.Older.{AreOlder};
ghost use Rattle.verdict_check.specs.Straddlers.{AreStraddlers};
ghost use Rattle.verdict_check.specs.Texts.{IsFirstDifference};

use crate::checker::Checker;
use crate::line::{read_last, read_line};
use crate::older::note_older;
use crate::places::note_newest;
use crate::reading::Reading;
use crate::records::{MOST_PAGES, Records};
use crate::straddlers::note_straddlers;
use crate::walk_end::WalkEnd;
use record_list::Found;
use tx_types::Protocol;

/// Whether a text is the report on a list of records: the number of pages that it explains, and otherwise the
/// number of the first line, counted from 1, at which the two differ or which one of them alone has. A line ends
/// with its line feed; bytes after the last one are a line. It shares definitions with the writer of the report and
/// no code, so it repeats none of its mistakes.
///
/// No memory is taken. On a list in which no two records have one link, the work grows with the list and the report;
/// but for the records of one page, under Back Pointer Cyclic Commit, with them times the links into that page. The
/// tables stand on the stack, with a place for each of 65536 pages: between 3 and 4 MiB.
#[inline(never)]
pub fn check_report(
    list: &[Found],
    protocol: Protocol,
    logical: u32,
    report: &[u8],
) -> Result<u32, u32>
    requires few { logical ≤ 65536 }
    requires pages { All (λ f. f.rec.page < logical) list.now }
    requires scanned { IsScanned list.now }
    ensures good { IfOk result (λ n. (report.now ≡ wanted protocol list.now logical)
        × (n ≡ length (pages list.now logical))) }
    ensures wrong { IfErr result (IsFirstDifference (wanted protocol list.now logical) report.now) }
{
    let mut places = [None; MOST_PAGES];
    note_newest(list, &mut places);
    let records = Records {
        list,
        places: &places,
    };
    let mut older = [0; MOST_PAGES];
    note_older(&records, &mut older);
    let mut straddlers = [0; MOST_PAGES];
    note_straddlers(&records, protocol, logical, &mut straddlers);
    let judge = Checker {
        records,
        older: &older,
        straddlers: &straddlers,
        protocol,
        logical,
    };
    let mut courses = [None; MOST_PAGES];
    read_report(&judge, &mut courses, report)
}

/// Reads a report line by line.
fn read_report(judge: &Checker, courses: &mut [Option<WalkEnd>], report: &[u8]) -> Result<u32, u32>
    requires few { judge.now.logical ≤ 65536 }
    requires size { length courses.old ≡ 65536 }
    requires pages { All (λ f. f.rec.page < judge.now.logical) judge.now.records.list.now }
    requires scanned { IsScanned judge.now.records.list.now }
    requires older { AreOlder judge.now.records.list.now (length judge.now.records.list.now) judge.now.older.now }
    requires straddlers { judge.now.protocol ≡ Bpcc →
        AreStraddlers judge.now.records.list.now judge.now.straddlers.now }
    requires empty { All (λ course. course ≡ None) courses.old }
    ensures good { IfOk result (λ n.
        (report.now ≡ wanted judge.now.protocol judge.now.records.list.now judge.now.logical)
        × (n ≡ length (pages judge.now.records.list.now judge.now.logical))) }
    ensures wrong { IfErr result (
        IsFirstDifference (wanted judge.now.protocol judge.now.records.list.now judge.now.logical) report.now) }
{
    let mut rest = report;
    let mut count = 0;
    for page in 0..judge.logical {
        if let Some(place) = judge.records.place(page) {
            let line = judge.line(courses, page, place);
            match read_line(Reading::of(rest), &judge.records, &line).rest {
                Some(behind) => rest = behind,
                None => return Err(count + 1),
            }
            count += 1;
        }
    }
    let Some(behind) = read_last(Reading::of(rest), count).rest else {
        return Err(count + 1);
    };
    if behind.is_empty() {
        Ok(count)
    } else {
        Err(count + 2)
    }
}
