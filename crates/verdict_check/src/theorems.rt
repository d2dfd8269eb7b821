//! What a yes means. The function does nothing: it is there for what it ensures.
ghost use Rattle.std.specs.Prelude.{◌≡◌, ℕ, ◌<◌, ◌≤◌, true, List, Contains};
ghost use Rattle.tx_types.specs.declared.config.Protocol.{Protocol};
ghost use Rattle.tx_types.specs.declared.record.Link.{Link};
ghost use Rattle.record_list.specs.declared.found.Found.{Found};
ghost use Rattle.record_list.specs.declared.found.Why.{Why};
ghost use Rattle.verdict_report.specs.Report.{has_record, page_line, walk_words, report};
ghost use Rattle.verdict_check.specs.Meaning.{HaveVersions, AreNumbers, IsMeant};
ghost use Rattle.verdict_check.specs.Texts.{text_lines};

/// In a text that is the report on a list, whichever that is, each line of a page says what the definitions say of
/// that page, and each page that has a record has a line.
pub fn yes_means()
    ensures says { (protocol : Protocol) (list : List Found) (logical : ℕ) (text : List ℕ) →
        logical ≤ 65536 → HaveVersions list → text ≡ report protocol list logical →
        (page version : ℕ) (reason : Why) (current : ℕ) (links : List Link) →
        AreNumbers page version reason current →
        Contains (text_lines text) (page_line page version reason current (walk_words links)) →
        IsMeant protocol list logical page version reason current links }
    ensures all { (protocol : Protocol) (list : List Found) (logical : ℕ) (text : List ℕ) →
        text ≡ report protocol list logical → (page : ℕ) → page < logical → has_record list page ≡ true →
        (version : ℕ) × (reason : Why) × (current : ℕ) × (links : List Link)
        × Contains (text_lines text) (page_line page version reason current (walk_words links)) }
{}
