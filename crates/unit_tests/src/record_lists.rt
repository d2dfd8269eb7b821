//! Lists of records that were worked out by hand. A line is `KIND PROTOCOL PAGES LIST => CLAIMS`, of a list as it is,
//! of its sorted records, or of how its pages stand.

use crate::claims::is_right;
use crate::samples::{halves, number, protocol_of, records, sides};
use record_list::Found;
use std::alloc::Global;
use tx_types::Protocol;

/// The lists.
pub const LISTS: &str = "\
    # Lists under Back Pointer Cyclic Commit: the reason of the verdict on each page and its current version, which \
    records are held, and the law that is broken.\n\
    list bpcc 3 0:0.1>1.1 1:1.2>1.2 2:1.3>1.3/2 => why 0 = 2, current 0 = 0, why 1 = cycle, current 1 = 3, \
    why 2 = -, current 2 = 0, record 0 0 9 = stays, record 1 1 9 = held, record 2 1 9 = stays, law = -, \
    misplaced = - -- 0.1 was aborted, page 1 was written twice since: the superseded 1.2 straddles its link\n\
    list bpcc 3 0:0.1>1.1 1:1.2>1.2 2:1.3>1.3/2 9:1.2>1.2 => why 0 = 2, current 0 = 0, why 1 = cycle, \
    current 1 = 3, why 2 = -, current 2 = 0, record 0 0 9 = stays, record 1 1 9 = held, record 2 1 9 = stays, \
    record 3 1 9 = held, law = -, misplaced = - -- a copy of 1.2 in a further slot is held as well\n\
    list bpcc 3 0:0.1>1.1 2:1.3>1.3/2 => why 0 = passed, current 0 = 1, why 1 = cycle, current 1 = 3, why 2 = -, \
    current 2 = 0, record 0 0 9 = stays, record 1 1 9 = stays, law = -, misplaced = - -- without 1.2 the link is \
    passed, and 0.1 would count\n\
    list bpcc 3 0:0.1>1.1 1:1.2>1.2 2:1.3>1.3/2 3:0.2>0.2 => why 0 = cycle, current 0 = 2, why 1 = cycle, \
    current 1 = 3, why 2 = -, current 2 = 0, record 0 0 9 = stays, record 1 1 9 = stays, record 2 1 9 = stays, \
    record 3 0 9 = stays, law = -, misplaced = - -- once 0.2 is written, 0.1 is stale and 1.2 answers for nobody\n\
    list bpcc 3 0:1.2>0.1 1:1.3>0.2 => why 0 = -, current 0 = 0, why 1 = absent, current 1 = 0, why 2 = -, \
    current 2 = 0, record 0 1 9 = stays, record 1 1 9 = stays, law = -, misplaced = - -- two loose records of one \
    page: its current version is not the next older one\n\
    list bpcc 3 0:1.2>0.1 => why 0 = -, current 0 = 0, why 1 = absent, current 1 = 0, why 2 = -, current 2 = 0, \
    record 0 1 9 = stays, law = -, misplaced = - -- nor is the older one current once the newest is lost\n\
    list bpcc 3 0:1.2>0.1 1:1.3>0.2/2 => why 0 = -, current 0 = 0, why 1 = absent, current 1 = 2, why 2 = -, \
    current 2 = 0, record 0 1 9 = stays, record 1 1 9 = stays, law = 5:0, misplaced = - -- with the newest version \
    as its back version, 1.3 would make the aborted 1.2 current\n\
    list bpcc 3 0:1.2>1.2 1:2.2>1.1 => why 0 = -, current 0 = 0, why 1 = cycle, current 1 = 2, why 2 = 2, \
    current 2 = 0, record 0 1 9 = held, record 1 2 9 = stays, law = -, misplaced = - -- a current record answers\n\
    list bpcc 3 0:0.3>1.1 1:1.2>0.1 2:1.3>1.3 => why 0 = 3, current 0 = 0, why 1 = cycle, current 1 = 3, why 2 = -, \
    current 2 = 0, record 0 0 9 = stays, record 1 1 9 = stays, record 2 1 9 = held, law = -, misplaced = - -- of \
    two records that straddle a link the newer one is held\n\
    list bpcc 3 0:0.1>1.1 1:1.2>1.2/1 2:1.2>1.3 => why 0 = 2, current 0 = 0, why 1 = cycle, current 1 = 2, \
    why 2 = -, current 2 = 0, record 0 0 9 = stays, record 1 1 9 = stays, record 2 1 9 = held, law = 2:2, \
    misplaced = - -- of two unequal records of one name, which breaks law 2, the one that straddles the link is held\n\
    list bpcc 3 0:1.3>1.1 => why 0 = -, current 0 = 0, why 1 = 3, current 1 = 0, why 2 = -, current 2 = 0, \
    record 0 1 9 = stays, law = -, misplaced = - -- a record that straddles its own link is loose, and nobody \
    answers for it\n\
    list bpcc 3 0:0.3>0.3 1:1.2>0.1 2:1.3>0.2 => why 0 = cycle, current 0 = 3, why 1 = 3, current 1 = 0, why 2 = -, \
    current 2 = 0, record 0 0 9 = held, record 1 1 9 = stays, record 2 1 9 = stays, law = -, misplaced = - -- one \
    record answers for two\n\
    list bpcc 3 0:1.2>2.1 1:2.1>0.1 2:2.2>2.2 => why 0 = -, current 0 = 0, why 1 = 2, current 1 = 0, why 2 = cycle, \
    current 2 = 2, record 0 1 9 = stays, record 1 2 9 = stays, record 2 2 9 = held, law = -, misplaced = - -- a \
    loose record that links to a stale one\n\
    list bpcc 3 0:1.2>1.3 1:1.3>0.1 => why 0 = -, current 0 = 0, why 1 = absent, current 1 = 0, why 2 = -, \
    current 2 = 0, record 0 1 9 = stays, record 1 1 9 = stays, law = -, misplaced = - -- and one that links to the \
    newest, which is loose itself\n\
    # The record that is responsible for the first one, and the next version of page 1 below version 3.\n\
    list bpcc 3 0:0.1>1.1 1:1.2>1.2 2:1.3>1.3/2 => responsible 0 = 1, older 1 3 = 2\n\
    list bpcc 3 0:1.2>0.1 1:1.3>0.2 => responsible 0 = -, older 1 3 = 2\n\
    # The law that a list breaks, under either protocol.\n\
    list bpcc 3 0:0.5>1.7/3 => law = 4:0 -- a back version that is not present\n\
    list bpcc 3 0:0.1>1.1 1:0.2>2.9/1 2:1.2>1.2 => law = 5:0 -- a current record whose link is straddled by the \
    current record\n\
    list bpcc 3 4:1.2>1.1 6:1.3>0.1/2 => law = 5:4 -- or by its own\n\
    list bpcc 3 0:0.1>0.1 1:0.3>1.5/2 2:0.4>2.5/1 => law = 6:1 -- a back version that is not the current one\n\
    list bpcc 3 0:0.3>0.1/1 1:1.2>0.3 2:1.3>0.2 => law = 6:1 -- a loose record that links to a current one\n\
    list bpcc 3 0:0.3>0.1/2 1:1.2>0.2 2:1.3>1.1 => law = 6:1 -- one whose link nothing straddles\n\
    list bpcc 3 0:0.1>0.1 1:0.2>0.2/1 2:0.3>1.9/1 => law = 7:1 -- one whose links lead back to it\n\
    list bpcc 3 0:1.2>1.2 1:1.3>0.1 => law = 7:0\n\
    list scc 20 => law = -\n\
    list scc 20 0:0.1>1.1 1:1.1>0.1 => law = - -- a whole cycle\n\
    list scc 20 0:20.1>0.1 => law = 1:0 -- a page, or a page of a link, that does not exist\n\
    list scc 20 0:0.1>0.1 7:1.1>20.1 => law = 1:7\n\
    list scc 20 0:0.1>0.1 1:0.1>1.1 => law = 2:1 -- one name with two links, and an equal copy\n\
    list scc 20 0:0.1>0.1 5:0.1>0.1 => law = -\n\
    list scc 20 0:0.1>1.1 4:2.1>1.1 => law = 3:4 -- two names with one link\n\
    list scc 20 0:0.1>1.2 1:1.3>2.1 => law = 5:0 -- a current record with a link above the current version of its \
    page\n\
    # Lists of 20 pages under Simple Cyclic Commit.\n\
    list scc 20 0:0.1>1.1 1:1.1>2.1 2:2.1>0.1 => why 0 = cycle, current 0 = 1 -- a whole cycle of three pages\n\
    list scc 20 0:0.1>1.1 1:1.1>2.1 2:2.1>0.1 => why 1 = cycle, current 1 = 1\n\
    list scc 20 0:0.1>1.1 1:1.1>2.1 2:2.1>0.1 => why 2 = cycle, current 2 = 1\n\
    list scc 20 0:0.1>1.1 1:1.1>2.1 => why 0 = absent, current 0 = 0 -- the same without its last record\n\
    list scc 20 0:0.1>1.1 1:1.1>2.1 => why 1 = absent, current 1 = 0\n\
    list scc 20 0:0.1>1.1 1:1.1>2.1 2:2.1>0.1 3:2.2>2.2 => why 0 = passed, current 0 = 1 -- and with the third page \
    written again\n\
    list scc 20 0:0.1>1.1 1:1.1>2.1 2:2.1>0.1 3:2.2>2.2 => why 1 = passed, current 1 = 1\n\
    list scc 20 0:0.1>1.1 1:1.1>2.1 2:2.1>0.1 3:2.2>2.2 => why 2 = cycle, current 2 = 2\n\
    list scc 20 0:4.1>25.1 1:5.1>5.1 => why 4 = absent, current 4 = 0 -- a link to a page that does not exist leads \
    to an absent record\n\
    list scc 20 0:4.1>25.1 1:5.1>5.1 => why 5 = cycle, current 5 = 1\n\
    # Whether a record must go before a page has a version. The first list has an aborted record of page 0 that \
    links to page 1, and a committed one of page 2; the second one a record of its own page below a version that it \
    links to.\n\
    list scc 20 0:0.2>1.5 1:2.4>2.4 => record 0 0 3 = goes\n\
    list scc 20 0:0.2>1.5 1:2.4>2.4 => record 0 0 2 = stays\n\
    list scc 20 0:0.2>1.5 1:2.4>2.4 => record 0 1 6 = goes\n\
    list scc 20 0:0.2>1.5 1:2.4>2.4 => record 0 1 5 = stays\n\
    list scc 20 0:0.2>1.5 1:2.4>2.4 => record 0 2 9 = stays\n\
    list scc 20 0:0.2>1.5 1:2.4>2.4 => record 1 2 9 = stays\n\
    list scc 20 0:3.3>3.9 => record 0 3 5 = goes\n\
    # The slot that law 9 names in a list, and by the sorted records of the list.\n\
    list bpcc 20 => counts = -\n\
    list bpcc 20 0:0.1>1.1#2 1:1.1>0.1#3 => counts = 9:0 -- a cycle of two whose records count 2 and 3\n\
    list bpcc 20 1:0.1>1.1#2 2:1.1>0.1#3 => counts = 9:1\n\
    list bpcc 20 0:0.1>0.1#2 => counts = 9:0 -- one record that counts 2\n\
    list bpcc 20 4:0.1>0.1#2 => counts = 9:4\n\
    list bpcc 20 0:0.1>1.1#2 1:1.1>0.1#2 => counts = - -- whole cycles that are counted\n\
    list bpcc 20 0:0.1>1.1#2 1:1.1>0.1#2 9:1.1>0.1#2 => counts = - -- with a copy\n\
    list bpcc 20 1:0.1>1.1#2 2:1.1>0.1#2 9:1.1>0.1#2 => counts = -\n\
    list bpcc 20 2:0.1>1.1#3 4:1.1>2.1#3 5:2.1>0.1#3 => counts = -\n\
    list bpcc 20 0:0.1>0.1#1 => counts = -\n\
    list bpcc 20 0:0.1>0.1 => counts = - -- cycles that are not counted\n\
    list bpcc 20 0:0.1>1.1 1:1.1>0.1 => counts = -\n\
    list bpcc 20 0:0.1>1.1 1:1.1>0.1#2 => counts = 9:0 -- a record without a count whose link names one with a count\n\
    list bpcc 20 0:0.1>1.1#2 => counts = - -- cycles that are not whole\n\
    list bpcc 20 1:0.1>1.1#2 => counts = -\n\
    list bpcc 20 3:0.1>1.1#7 4:1.1>2.1#7 => counts = -\n\
    list bpcc 20 0:0.1>1.1#4 1:1.1>0.1#4 => counts = 9:0 -- twice as many as there are\n\
    list bpcc 20 0:2.1>9.1#3 1:1.1>2.1#1 => counts = 9:1 -- the record whose link it is, and not the one that it \
    names\n\
    list bpcc 20 0:0.1>0.1#2 1:1.1>2.1#1 2:2.1>9.1#3 => counts = 9:0 -- the lowest slot, whichever half is broken \
    there\n\
    list bpcc 20 0:4.1>4.1#2 1:1.1>2.1#1 2:2.1>9.1#3 => counts = 9:0\n\
    list bpcc 20 0:0.1>0.1#1 1:3.1>0.1#1 => counts = - -- a record that links into a cycle from outside\n\
    # The newest version of a page, its greatest mention and its next version below another one; whether a name is \
    there; the reason of a verdict and the current version by plain loops, of a list with an aborted record whose \
    link a superseded one straddles; and the first record that has no current version of its page beside it, and the \
    first whose link did not count.\n\
    list bpcc 4 0:0.1>1.7 1:0.4>0.4 2:0.3>2.1 => newest 0 = 4, mention 0 = 4, older 0 4 = 3\n\
    list bpcc 4 0:0.1>1.7 1:0.4>0.4 2:0.3>2.1 => newest 1 = 0, mention 1 = 7, older 1 4 = 0\n\
    list bpcc 4 0:0.1>1.7 1:0.4>0.4 2:0.3>2.1 => newest 2 = 0, mention 2 = 1, older 2 4 = 0\n\
    list bpcc 4 0:0.1>1.7 1:0.4>0.4 2:0.3>2.1 => newest 3 = 0, mention 3 = 0, older 3 4 = 0\n\
    list bpcc 4 0:0.1>1.7 1:0.4>0.4 2:0.3>2.1 => present 0.3 = yes\n\
    list bpcc 4 0:0.1>1.7 1:0.4>0.4 2:0.3>2.1 => present 1.7 = no\n\
    list bpcc 3 0:0.1>1.1 1:1.2>1.2 2:1.3>1.3/2 => reason 0 = 2, version 0 = 0\n\
    list bpcc 3 0:0.1>1.1 1:1.2>1.2 2:1.3>1.3/2 => reason 1 = cycle, version 1 = 3\n\
    list scc 3 0:0.1>1.1 1:1.2>1.2 2:1.3>1.3/2 => reason 0 = passed, version 0 = 1\n\
    list bpcc 20 0:0.5>1.7/3 => alone = 0, early = - -- a back version that is not present\n\
    list bpcc 20 0:0.1>1.1 1:0.2>2.9/1 2:1.2>1.2 => alone = -, early = 0 -- a current record whose link is straddled\n\
    list bpcc 3 0:0.1>1.1 1:1.2>1.2 2:1.3>1.3/2 => alone = -, early = -\n\
    # Whether a record straddles a link to a version; which record is responsible for each one, and which for a name \
    beside a current version; the greatest version that straddles a name, of all records and of those that may be \
    responsible; and whether one record answers for another. Where the newest record is not committed, its back \
    version is 0. A list with two records of one name is not sound.\n\
    list bpcc 3 0:0.5>1.7/2 => straddles 0 1 = no\n\
    list bpcc 3 0:0.5>1.7/2 => straddles 0 2 = no\n\
    list bpcc 3 0:0.5>1.7/2 => straddles 0 3 = yes\n\
    list bpcc 3 0:0.5>1.7/2 => straddles 0 4 = yes\n\
    list bpcc 3 0:0.5>1.7/2 => straddles 0 5 = no\n\
    list bpcc 3 0:0.5>1.7/2 => straddles 0 6 = no\n\
    list bpcc 3 0:0.1>1.1 2:1.2>1.2 3:1.3>1.3/2 => responsible 0 = 1, responsible 1 = -, responsible 2 = - -- a \
    superseded record straddles the link of an aborted one\n\
    list bpcc 3 0:0.1>1.1 1:1.2>1.2 2:1.2>1.2 3:1.3>1.3/2 => responsible 0 = 1, responsible 1 = -, \
    responsible 2 = -, responsible 3 = - -- with a copy in a lower slot\n\
    list bpcc 3 0:0.1>1.1 3:1.3>1.3/2 => responsible 0 = -, responsible 1 = - -- without it nothing straddles the \
    link, and its record counts\n\
    list bpcc 3 0:1.2>1.2 1:2.2>1.1 => responsible 0 = -, responsible 1 = 0 -- the current record itself, for one \
    record and for two\n\
    list bpcc 3 0:0.3>0.3 1:1.2>0.1 2:1.3>0.2 => responsible 0 = -, responsible 1 = 0, responsible 2 = 0\n\
    list bpcc 3 0:0.3>1.1 1:1.2>0.1 2:1.3>1.3 => responsible 0 = 2, responsible 1 = -, responsible 2 = - -- of two \
    that straddle the link the one of the greatest version\n\
    list bpcc 3 0:1.3>1.1 => responsible 0 = - -- a link above the current version, which loose records alone \
    straddle\n\
    list bpcc 3 0:0.1>1.1 1:1.2>1.2/1 2:1.2>1.2 3:1.3>1.3/2 => responsible 0 = 2, responsible 1 = -, \
    responsible 2 = -, responsible 3 = - -- a namesake that does not straddle stands before it, which no sound list \
    has\n\
    list bpcc 3 0:1.2>1.3 1:1.3>0.1 => responsible 0 = -, responsible 1 = - -- a link to an absent version above \
    all, and a record that links to a loose one\n\
    list bpcc 3 0:0.1>1.1 1:1.2>1.2 2:1.3>1.3/2 3:1.6>2.1/3 4:1.7>2.2 => straddling 1.1 = 7, counted 1.1 = 0\n\
    list bpcc 3 0:0.1>1.1 1:1.2>1.2 2:1.3>1.3/2 3:1.6>2.1/3 => straddling 1.1 = 2, counted 1.1 = 2\n\
    list bpcc 3 0:0.1>1.1 1:1.2>1.2 2:1.3>1.3/2 3:1.6>2.1/3 => answers 1 0 = yes\n\
    list bpcc 3 0:0.1>1.1 1:1.2>1.2 2:1.3>1.3/2 3:1.6>2.1/3 => answers 2 0 = no\n\
    list bpcc 3 0:0.1>1.1 1:1.2>1.2 2:1.3>1.3/2 3:1.6>2.1/3 => answers 1 1 = no\n\
    list bpcc 3 0:0.1>1.1 1:1.2>1.2/1 2:1.2>1.3 => answers 1 0 = no\n\
    list bpcc 3 0:0.1>1.1 1:1.2>1.2/1 2:1.2>1.3 => answers 2 0 = yes\n\
    list bpcc 3 0:1.4>1.4/1 1:1.3>1.3/1 2:1.4>1.4/1 3:2.9>2.9 4:1.5>1.5/4 5:1.7>2.1 => answer 1.2 5 = 0\n\
    list bpcc 3 0:1.4>1.4/1 1:1.3>1.3/1 2:1.4>1.4/1 3:2.9>2.9 4:1.5>1.5/4 5:1.7>2.1 => answer 1.2 3 = 1\n\
    list bpcc 3 0:1.4>1.4/1 1:1.3>1.3/1 2:1.4>1.4/1 3:2.9>2.9 4:1.5>1.5/4 5:1.7>2.1 => answer 1.2 7 = 5\n\
    list bpcc 3 0:1.4>1.4/1 1:1.3>1.3/1 2:1.4>1.4/1 3:2.9>2.9 4:1.5>1.5/4 5:1.7>2.1 => answer 1.1 5 = -\n\
    list bpcc 3 0:1.4>1.4/1 1:1.3>1.3/1 2:1.4>1.4/1 3:2.9>2.9 4:1.5>1.5/4 5:1.7>2.1 => answer 0.2 5 = -\n\
    # Sorted records: their slots in order of their names, of one record in two slots, three versions of a page, and \
    then once a page far behind the others; what they find, with links that lead where they should; and how the \
    pages stand.\n\
    sorted bpcc 3 0:2.3>2.3 1:0.1>0.1 2:2.1>2.1 3:1.5>1.5 4:2.3>2.3 5:2.2>2.2 => slot 0 = 1, slot 1 = 3, \
    slot 2 = 2, slot 3 = 5, slot 4 = 0, slot 5 = 4, length = 6\n\
    sorted bpcc 3 0:2.3>2.3 1:4000000000.1>4000000000.1 2:2.1>2.1 3:1.5>1.5 4:2.3>2.3 5:2.2>2.2 => slot 0 = 3, \
    slot 1 = 2, slot 2 = 5, slot 3 = 0, slot 4 = 4, slot 5 = 1, length = 6\n\
    sorted bpcc 3 0:1.4>0.2/1 1:2.1>1.3 2:0.2>1.4 3:1.1>1.1 => slot 0 = 2, named 0 = 0.2>1.4, newest 1 = 4, \
    older 1 4 = 1, find 1.4 = 2, find 1.3 = -, link 1.4 = 0.2, back 1.4 = 1, straddling 1.3 = 4, orbit 0 = round 2, \
    why 0 = cycle, why 2 = 4, current 2 = 0, responsible 1.3 = 4 -- pages 0 and 1 stand in one cycle; page 2 links \
    to an aborted version of page 1, which is straddled\n\
    sorted scc 3 0:1.4>0.2/1 1:2.1>1.3 2:0.2>1.4 3:1.1>1.1 => why 2 = passed\n\
    sorted bpcc 3 0:0.1>1.1 1:1.2>1.2 2:1.3>1.3/2 3:1.6>2.1/3 4:1.7>2.2 => upto 1.1 6 = 2, upto 1.4 6 = 6, \
    upto 1.4 5 = 0 -- page 1 has the versions 2, 3 and two loose ones\n\
    standing bpcc 5 0:1.4>0.2/1 1:2.1>1.3 2:0.2>1.4 3:1.1>1.1 => current 0 = 2, current 1 = 4, current 2 = 0, \
    responsible 1.3 = 4\n\
    standing scc 5 0:1.4>0.2/1 1:2.1>1.3 2:0.2>1.4 3:1.1>1.1 => current 0 = 2, current 1 = 4, current 2 = 1, \
    responsible 1.4 = 0\n\
    standing bpcc 5 0:1.1>0.1 1:0.2>3.1/1 2:0.3>2.9 3:0.4>2.8/2 4:3.1>4.1 5:4.2>4.2/1 => current 0 = 2, \
    current 1 = 0, current 2 = 0, responsible 0.1 = 0 -- two records of page 0 are loose, of which one goes further \
    back than the current one\n\
    # The orbits of the nodes of a graph.\n\
    graph 0 = aside\n\
    graph 1 = round 2\n\
    graph 2 = round 2\n\
    graph 3 = ends 1 4\n\
    graph 4 = ends 0 4\n\
    graph 5 = round 1\n\
    graph 6 = ends 2 4";

/// Whether each claim of a text is right.
fn are_right(
    alloc: Global,
    kind: &str,
    list: &[Found],
    protocol: Protocol,
    logical: u32,
    claims: &str,
) -> bool {
    for claim in claims.split(", ") {
        if !is_right(alloc, kind, list, protocol, logical, claim) {
            return false;
        }
    }
    true
}

/// Whether the claims of a line are right of its list.
pub fn is_list_right(alloc: Global, kind: &str, line: &str) -> bool {
    let (left, claims) = sides(line);
    let (protocol, rest) = halves(left, " ");
    let (logical, list) = halves(rest, " ");
    match (number(logical), records(alloc, list)) {
        (Some(logical), Some(list)) => {
            are_right(alloc, kind, &list, protocol_of(protocol), logical, claims)
        }
        _ => false,
    }
}
