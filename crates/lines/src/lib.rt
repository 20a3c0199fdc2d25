// The lines of the programs, one function for each sort, put into a lent buffer from a position on.
#![tactic(auto)]

ghost use Rattle.std.specs.Prelude.{◌+◌, [], ◌∷◌, length};
ghost use Rattle.table.specs.Pass.{refusal};
ghost use Rattle.text.specs.Text.{line_of, refused_line};
ghost use Rattle.schedule.specs.Listing.{line, told_with, last_with};
ghost use Rattle.lines.specs.Lines.{kind_word, pair_texts, told_texts, turn_texts, totals_texts, last_texts};
ghost use Rattle.text.specs.Puts.{Puts};

use schedule::Reply;
use table::kinds::Kind;
use table::{Facts, Refusal};
use text::{put_labelled, put_number, put_word};

// The line of a table's answer: its facts, or a refusal.
pub fn put_answer(out: &mut [u8], at: usize, answer: Result<Facts, Refusal>) -> usize
    ensures { Puts out.old at out.new result (line_of answer ∷ []) 64 }
{
    let mut line = [0u8; 80];
    let k = text::table_line(answer, &mut line);
    put_word(out, at, &line[..k])
}

// The line of a refusal at place 0.
pub fn put_refused(out: &mut [u8], at: usize, number: u8) -> usize
    ensures { Puts out.old at out.new result (refused_line (refusal number 0) ∷ []) 64 }
{
    put_answer(out, at, Err(Refusal::new(number, 0)))
}

// A kind's name.
fn put_kind(out: &mut [u8], at: usize, kind: Kind) -> usize
    ensures { Puts out.old at out.new result (kind_word kind ∷ []) 6 }
{
    match kind {
        Kind::End => put_word(out, at, b" end"),
        Kind::Work => put_word(out, at, b" work"),
        Kind::Alloc => put_word(out, at, b" alloc"),
        Kind::Free => put_word(out, at, b" free"),
        Kind::Fork => put_word(out, at, b" fork"),
        Kind::Join => put_word(out, at, b" join"),
        Kind::Unknown => put_word(out, at, b" -"),
    }
}

// Thread and action, each after a space.
fn put_pair(out: &mut [u8], at: usize, thread: u16, action: u16) -> usize
    ensures { Puts out.old at out.new result (pair_texts thread action) 12 }
{
    let at = put_labelled(out, at, b" ", thread as u64);
    put_labelled(out, at, b" ", action as u64)
}

// Thread, action and name.
fn put_told(out: &mut [u8], at: usize, reply: Reply, kind: Kind, next: u16) -> usize
    ensures { Puts out.old at out.new result (told_texts (told_with reply kind next)) 18 }
{
    match reply {
        Reply::Idle => put_word(out, at, b" - - idle"),
        Reply::Done { thread, action } => {
            let at = put_pair(out, at, thread, action);
            put_kind(out, at, kind)
        }
        Reply::Quota { thread, wanted: _ } => {
            let at = put_pair(out, at, thread, next);
            put_word(out, at, b" quota")
        }
        Reply::Wait { thread, child: _ } => {
            let at = put_pair(out, at, thread, next);
            put_word(out, at, b" wait")
        }
    }
}

// The line of a turn of worker w: `kind` is that of the action done, `next` the thread's next action after the turn.
pub fn put_turn(
    out: &mut [u8],
    at: usize,
    turns: u64,
    w: u8,
    reply: Reply,
    kind: Kind,
    next: u16,
    held: u64,
) -> usize
    ensures { Puts out.old at out.new result (turn_texts (line turns w (told_with reply kind next) held)) 64 }
{
    let at = put_number(out, at, turns);
    let at = put_labelled(out, at, b" ", w as u64);
    let at = put_told(out, at, reply, kind, next);
    let at = put_labelled(out, at, b" ", held);
    put_word(out, at, b"\n")
}

// A word, turns and peak.
pub fn put_totals(out: &mut [u8], at: usize, word: &[u8], turns: u64, peak: u64) -> usize
    ensures { Puts out.old at out.new result (totals_texts word.now turns peak) (length word.now + 46) }
{
    let at = put_labelled(out, at, word, turns);
    put_labelled(out, at, b" peak ", peak)
}

// The last line where no turn is refused.
pub fn put_last(out: &mut [u8], at: usize, ended: bool, turns: u64, peak: u64) -> usize
    ensures { Puts out.old at out.new result (last_texts (last_with ended turns peak)) 64 }
{
    if ended {
        let at = put_totals(out, at, b"done ", turns, peak);
        put_word(out, at, b"\n")
    } else {
        let at = put_totals(out, at, b"open ", turns, peak);
        put_word(out, at, b"\n")
    }
}
