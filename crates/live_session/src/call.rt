ghost use Rattle.std.specs.Prelude.{◌≡◌, ◌⊎◌, true, false};
ghost use Rattle.live_session.specs.Endings.{ending_of};
ghost use Rattle.live_session.specs.Faults.{IsFaulted, WhereFailed};
ghost use Rattle.live_session.specs.Hearing.{WhereClosed};
ghost use Rattle.live_session.specs.LineDesk.{BothTell};
ghost use Rattle.live_session.specs.Saying.{SaidDurably, SpellsLeft, SpellsWhereClosed};
ghost use Rattle.live_session.specs.Talks.{ServesFile};
ghost use Rattle.live_session.specs.Top.{Calls, Ends};
ghost use Rattle.live_session.specs.Words.{name_by};

use crate::LineDesk;
use crate::ending::{Ending, IN_USE, end};
use crate::lines::MAX_LINE_BYTES;
use crate::opening::open_flash;
use crate::session::serve_flash;
use crate::words::parse_words;
use file_flash::Store;
use live_flash::LiveFlash;
use program_base::ImageRefusal;
use std::alloc::Global;

// What the clauses cite by name.
const _: () = prove!(MAX_LINE_BYTES == 134217728 && IN_USE == 15);

/// Serves the lines of the input on the image file that the words name, and answers the status: 0 where the input ended
/// and no line was bad, 4 where one was, 1 for words that are not those of the program, 2 for a file that is missing, 3
/// for bytes that are neither an image file in use nor a live file, 5 where a call of the desk or of the file failed, 6
/// for want of memory, 7 for an image that is not sound, 9 for a file that is too long, and 15 for one that another
/// program holds.
pub fn top<S: Store + Drop, D: LineDesk<S, LiveFlash<S>>>(
    alloc: Global,
    words: &[String],
    desk: &mut D,
) -> u8
    ensures ends { Ends (name_by words.now) (D.state desk.old) (D.state desk.new) result }
    ensures durable { SaidDurably (D.state desk.old) → SaidDurably (D.state desk.new) }
    ensures closed { (result ≡ 0) ⊎ (result ≡ 4) → SpellsLeft (D.state desk.new) }
    ensures good { result ≡ 0 →
        BothTell (ServesFile (name_by words.now) true) (D.state desk.old).told (D.state desk.new).told }
    ensures bad { result ≡ 4 →
        BothTell (ServesFile (name_by words.now) false) (D.state desk.old).told (D.state desk.new).told }
    ensures fault { result ≡ 5 → IsFaulted (name_by words.now) (D.state desk.old) (D.state desk.new) }
{
    let ending = serve(alloc, words, desk);
    end(alloc, desk, ending)
}

/// Does what the words ask for.
fn serve<'a, S: Store + Drop, D: LineDesk<S, LiveFlash<S>>>(
    alloc: Global,
    words: &'a [String],
    desk: &mut D,
) -> Ending<'a>
    ensures durable { SaidDurably (D.state desk.old) → SaidDurably (D.state desk.new) }
    ensures closed { SpellsWhereClosed (ending_of result) (D.state desk.new) }
    ensures calls { Calls (name_by words.now) (D.state desk.old) (D.state desk.new) (ending_of result) }
    ensures serves { WhereClosed
        (λ good. BothTell (ServesFile (name_by words.now) good) (D.state desk.old).told (D.state desk.new).told)
        (ending_of result) }
    ensures fault { WhereFailed (IsFaulted (name_by words.now) (D.state desk.old) (D.state desk.new))
        ((D.state desk.new).faults ≡ (D.state desk.old).faults) (ending_of result) }
{
    let Some(name) = parse_words(words) else {
        return Ending::Refused(ImageRefusal::BadWords);
    };
    match open_flash(alloc, name, desk) {
        Ok(flash) => serve_flash(alloc, desk, flash),
        Err(ending) => ending,
    }
}
