//! Pictures of small flashes.
ghost use Rattle.std.specs.Prelude.{◌≡◌, Ok, length};
ghost use Rattle.tx_types.specs.Config.{checked, shape_of, slots_of};

use crate::samples::{halves, is_version, number, protocol_of, rec, word};
use crate::texts::{are_bytes_of, end, times};
use flash_picture::{Marks, draw, draw_overview, draw_svg};
use judged_records::Note;
use record_list::Breach;
use std::alloc::Global;
use tx_types::{Block, Config, Memory, Protocol, Slot};

/// A device of eight slots on two dies, for three pages.
fn device(protocol: Protocol) -> Config
    ensures check { checked result ≡ Ok (shape_of result) }
    ensures slots { slots_of (shape_of result) ≡ 8 }
{
    Config {
        protocol,
        page_bytes: 16,
        pages_per_block: 2,
        blocks_per_die: 2,
        dies: 2,
        logical: 3,
        pending: 1,
    }
}

/// What is noted of a slot: a record, `damaged`, or nothing.
fn note_of(word: &str) -> Note {
    match word {
        "damaged" => Note::Damaged,
        _ => match rec(word) {
            Some(rec) => Note::Holds(rec),
            None => Note::Blank,
        },
    }
}

/// A device of 64 slots, for twenty pages.
fn wide_device() -> Config
    ensures check { checked result ≡ Ok (shape_of result) }
    ensures slots { slots_of (shape_of result) ≡ 64 }
{
    Config {
        protocol: Protocol::Scc,
        page_bytes: 16,
        pages_per_block: 16,
        blocks_per_die: 4,
        dies: 1,
        logical: 20,
        pending: 1,
    }
}

/// What is noted of the first slots, and that nothing is of the others.
fn notes_of(text: &str) -> [Note; 64] {
    let mut notes = [Note::Blank; 64];
    for slot in 0..64 {
        notes[slot] = note_of(word(text, slot));
    }
    notes
}

/// What is marked: the last of four blocks as the spare, or a law that is broken, which names a slot, as `9:6`.
fn marks_of(text: &str) -> Marks {
    let (law, slot) = halves(text, ":");
    let breach = match (law.parse::<u8>(), number(slot)) {
        (Ok(law), Some(slot)) => Some(Breach {
            law,
            slot: Slot(slot),
        }),
        _ => None,
    };
    Marks {
        spare: if breach.is_none() {
            Some(Block(3))
        } else {
            None
        },
        breach,
    }
}

/// Draws a flash.
fn draw_kind(
    alloc: Global,
    kind: &str,
    config: Config,
    notes: &[Note],
    marks: Marks,
    out: &mut Vec<u8>,
) -> Result<(), Memory>
    requires check { checked config ≡ Ok (shape_of config) }
    requires whole { length notes.now ≡ slots_of (shape_of config) }
{
    match kind {
        "picture" | "wide" => draw(alloc, config, notes, marks, out),
        "svg" | "wide-svg" => draw_svg(alloc, config, notes, marks, out),
        _ => draw_overview(alloc, config, notes, marks, kind == "squares", out),
    }
}

/// Draws a flash behind a byte that was there before. Returns whether there is memory.
fn is_drawn(
    alloc: Global,
    kind: &str,
    protocol: Protocol,
    marks: Marks,
    notes: &str,
    out: &mut Vec<u8>,
) -> bool {
    let notes = notes_of(notes);
    if out.push(b'>').is_err() {
        return false;
    }
    if kind == "wide" || kind == "wide-svg" {
        draw_kind(alloc, kind, wide_device(), &notes, marks, out).is_ok()
    } else {
        draw_kind(alloc, kind, device(protocol), &notes[..8], marks, out).is_ok()
    }
}

/// Whether a picture has what the text says: `is` and the whole of it, `has` and a piece, `ends` and its end, or how
/// many walks or paths.
fn has_piece(picture: &[u8], text: &str) -> bool {
    let (kind, want) = halves(text, " ");
    match kind {
        "is" => are_bytes_of(want, picture),
        "has" => times(want, picture) > 0,
        "ends" => end(want, picture),
        "walks" => is_version(want, times("walk ", picture)),
        "paths" => is_version(want, times("<path", picture)),
        _ => false,
    }
}

/// Whether a picture has all pieces of a text.
fn has_pieces(picture: &[u8], pieces: &str) -> bool {
    for piece in pieces.split(" && ") {
        if !has_piece(picture, piece) {
            return false;
        }
    }
    true
}

/// Kinds of pictures, protocols, `spare` or the law that is broken and the slot that it names, what is noted of each
/// slot, and what the picture has. In it `;` stands for a line feed.
pub const PICTURES: &str = "\
    # Page 0 was written again with page 1, and power was cut between the two.\n\
    picture scc spare 0.1>0.1 blank 0.2>1.1 damaged 2.1>2.1 blank blank blank => is >scc, 3 pages, dies of 2 blocks \
    of 2 slots;die 0;block 0    |0.1 current|blank      |;block 1    |0.2 loose  |damaged    |;die 1;block 2    \
    |2.1 current|blank      |;spare 3    |blank      |blank      |;walk 0.2 -> 1.1 absent;\n\
    # The first write of page 1 is gone, and the record that followed it answers for the other page: as a picture, \
    and as an overview with a letter for each slot, and how many slots are of each kind.\n\
    picture bpcc 9:6 0.1>1.1 1.2>1.2 1.3>1.3/2 blank blank blank 2.1>2.1 blank => is >bpcc, 3 pages, dies of 2 \
    blocks of 2 slots;die 0;block 0    |0.1 loose     |1.2 stale held|;block 1    |1.3 current   |blank         |;\
    die 1;block 2    |blank         |blank         |;block 3    |2.1 current ! |blank         |;walk 0.1 -> 1.1 \
    straddled by 2;unsound law 9 slot 6;\n\
    overview bpcc 9:6 0.1>1.1 1.2>1.2 1.3>1.3/2 blank blank blank 2.1>2.1 blank => is >bpcc, 3 pages, dies of 2 \
    blocks of 2 slots;die 0;block 0    lS;block 1    c.;die 1;block 2    ..;block 3    !.;c current 2;l loose 1;s \
    stale 1;x damaged 0;. blank 4;C L S held 1;discard 0;walk 0.1 -> 1.1 straddled by 2;unsound law 9 slot 6;\n\
    # The same overview in SVG: a line in the square of a slot for each kind of the slot, a frame around the slot \
    that a broken law names, and what a pointer shows.\n\
    squares bpcc 9:6 0.1>1.1 1.2>1.2 1.3>1.3/2 blank blank blank 2.1>2.1 blank => has width='640' height='220' \
    viewBox='0 0 640 220' && has <text x='290' y='66'>held, a line below: 1</text></g> && has <g class='die'><text \
    x='92' y='134'>die 1</text></g> && has <title>block 0 current 0 loose 1 stale 1 damaged 0 blank 0 held 1 \
    discard 0</title><text x='8' y='146'>block 0</text> && has <path class='loose' d='M72,143h5'/><path \
    class='stale' d='M78,143h5'/><path class='damaged' d=''/> && has <path class='held' d='M78,146h5'/> && has \
    <path class='current' d='M156,151h5'/> && has <path class='blank' d='M156,143h5M162,143h5'/> && has <title>slot \
    1: 1.2 stale held, link 1.2, back 0</title><rect x='78' y='140' width='6' height='8'/></g> && has <g \
    class='!'><rect x='156' y='148' width='6' height='8'/></g> && has <text y='160'><tspan class='walk' x='8' \
    dy='20'>walk 0.1 -> 1.1 straddled by 2</tspan>\n\
    # Two records link to the one of page 1, which links to itself.\n\
    picture scc 3:1 0.1>1.1 1.1>1.1 => ends walk 0.1 -> 1.1 -> 1.1 -> 1.1 -> 1.1 too long;unsound law 3 slot 1;\n\
    # The walks that a picture tells: none that is the rest of another one, and two that have the same rest, as in \
    unsound images.\n\
    picture scc spare 0.1>1.1 blank 1.1>2.1 => has walk 0.1 -> 1.1 -> 2.1 absent && walks 1\n\
    picture scc spare 2.1>0.1 blank 1.1>2.1 0.1>0.2 => has walk 1.1 -> 2.1 -> 0.1 -> 0.2 absent && walks 1\n\
    picture scc spare 0.1>1.1 2.1>1.1 blank 1.1>1.2 => has walk 0.1 -> 1.1 -> 1.2 absent;walk 2.1 -> 1.1 -> 1.2 \
    absent && walks 2\n\
    # Of two records of one name, as unsound images have them, the one straddles the link of a loose record, and is \
    held.\n\
    picture bpcc 2:2 0.1>1.1 1.2>1.2/1 1.2>1.2 1.3>1.3/2 => has block 0    |0.1 loose       |1.2 stale       |;\
    block 1    |1.2 stale held !|1.3 current     |;\n\
    # Pages 0 and 1 were written together, the record of page 1 was copied, and a write of page 0 was cut: in SVG \
    cells with their words, the label of the spare, arrows, and a walk. A link to a record that stands twice leads \
    to the lower slot.\n\
    svg scc spare 0.1>1.1 blank 0.2>2.1/1 1.1>0.1 damaged 1.1>0.1 => has width='800' height='400' viewBox='0 0 800 \
    400' && has <title>slot 2: 0.2 loose, link 2.1, back 1</title> && has <g class='1.1 current'><title>slot 3: 1.1 \
    current, link 0.1, back 0</title> && has <g class='spare 3'><text x='8' y='330'>spare 3</text></g> && has <path \
    d='M132,174C132,164 236,200 236,210'/> && has <path d='M252,210C252,200 116,164 116,174'/> && has <path \
    d='M252,278C252,268 116,164 116,174'/> && has >walk 0.2 -> 2.1 absent</tspan> && paths 3\n\
    # A flash of 64 slots on which each of twenty pages but the last was written with the next one: of a walk of \
    more than sixteen links the first ones and the last, in a line that names seventeen pages, and one more line, \
    that of the seventeenth page from the end; and in SVG the rest of a long line in the next one.\n\
    wide scc spare 0.1>1.1 1.1>2.1 2.1>3.1 3.1>4.1 4.1>5.1 5.1>6.1 6.1>7.1 7.1>8.1 8.1>9.1 9.1>10.1 10.1>11.1 \
    11.1>12.1 12.1>13.1 13.1>14.1 14.1>15.1 15.1>16.1 16.1>17.1 17.1>18.1 => has |;walk 0.1 -> 1.1 -> 2.1 -> && has \
    14.1 -> 15.1 -> 16.1 .. -> 18.1 absent;walk 1.1 -> 2.1 -> && has 15.1 -> 16.1 -> 17.1 .. -> 18.1 absent; && \
    walks 2\n\
    wide-svg scc spare 0.1>1.1 1.1>2.1 2.1>3.1 3.1>4.1 4.1>5.1 5.1>6.1 6.1>7.1 7.1>8.1 8.1>9.1 9.1>10.1 10.1>11.1 \
    11.1>12.1 12.1>13.1 13.1>14.1 14.1>15.1 15.1>16.1 16.1>17.1 17.1>18.1 => has -> 11.1</tspan>;<tspan \
    class='walk' x='40' dy='20'> -> 12.1 -> 13.1 -> 14.1 -> && has -> 15.1 -> 16.1 .. -> 18.1 absent</tspan>; && \
    has <g class='arrow 16.1 loose'><path d=' && has height='572'";

/// Whether the picture of a line has what the line says.
pub fn is_picture_right(alloc: Global, kind: &str, line: &str) -> bool {
    let (given, pieces) = halves(line, " => ");
    let (protocol, rest) = halves(given, " ");
    let (marks, notes) = halves(rest, " ");
    let mut out = Vec::new(alloc);
    is_drawn(
        alloc,
        kind,
        protocol_of(protocol),
        marks_of(marks),
        notes,
        &mut out,
    ) && has_pieces(&out, pieces)
}
