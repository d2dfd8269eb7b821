//! What holds of all reports. The functions do nothing: each is there for what it ensures.
ghost use Rattle.std.specs.Prelude.{ℕ, ◌<◌, ◌≤◌, ◌↔◌, List, length, IsTrue, Contains};
ghost use Rattle.std.specs.List.Sorted.{IsStrictlyIncreasing};
ghost use Rattle.tx_types.specs.declared.config.Protocol.{Protocol};
ghost use Rattle.tx_types.specs.declared.record.Link.{Link};
ghost use Rattle.record_list.specs.declared.found.Found.{Found};
ghost use Rattle.record_list.specs.declared.found.Why.{Why};
ghost use Rattle.verdict_report.specs.Examples.{EmptyReport, StraddledReport, TwiceStraddledReport, EndlessReport};
ghost use Rattle.verdict_report.specs.Lines.{FitTypes, max_report_line_bytes};
ghost use Rattle.verdict_report.specs.Report.{has_record, page_line, pages, walk_words};
ghost use Rattle.verdict_report.specs.Walks.{links_of, IsDecidingWalk};

/// The links that a report shows of a page are those of the walk that decides the verdict on it.
pub fn walk_decides()
    ensures { (protocol : Protocol) (list : List Found) (logical page : ℕ) →
        IsDecidingWalk protocol list logical page (links_of list logical page) }
{}

/// A report has a line for each page that has a record, once and ascending, and for no other.
pub fn pages_are_those_of_records()
    ensures each { (list : List Found) (logical page : ℕ) →
        Contains (pages list logical) page ↔ ((page < logical) × IsTrue (has_record list page)) }
    ensures ascending { (list : List Found) (logical : ℕ) →
        IsStrictlyIncreasing (pages list logical) }
{}

/// The line of a page, with its line feed, is short, where the numbers in it are those of their types.
pub fn lines_are_short()
    ensures { (page version : ℕ) (reason : Why) (current : ℕ) (links : List Link) →
        FitTypes page version reason current links →
        length (page_line page version reason current (walk_words links)) ≤ max_report_line_bytes }
{}

/// The reports of a few records.
pub fn worked_reports()
    ensures empty { EmptyReport }
    ensures straddled { StraddledReport }
    ensures twice_straddled { TwiceStraddledReport }
    ensures endless { EndlessReport }
{}
