// The lines of a strip's entries, as many at a time as a lent buffer has the room for.
#![tactic(auto)]

ghost use Rattle.std.specs.Prelude.{◌≡◌, ◌≤◌, length, take};
ghost use Rattle.format.specs.Wrote.{Wrote};
ghost use Rattle.format.specs.Pieces.{lines_at, shown_part};
ghost use Rattle.walk_answer.specs.Answers.{answer_meaning, numbers_meaning};

use print_lines::{LINE, entry_line};
use refusal::Refusal;
use strip_reader::Reader;
use walk_answer::{Answer, Numbers};

// How many bytes the lines have, and the place of the strip where the next ones begin.
#[derive(Clone, Copy, PartialEq, Eq, Debug)]
pub struct Lines {
    pub length: usize,
    pub next: usize,
}

// The lines of the entries from a place on, while the room of a line is left. None is put where there are no more entries,
// and none into a buffer shorter than LINE.
#[tactic(auto, using(crate::proofs::Filling::begin, crate::proofs::Filling::turn, crate::proofs::Filling::line_put, format::proofs::Pieces::forward))]
pub fn put_lines(out: &mut [u8], strip: &[u8], place: usize) -> Lines
    ensures wrote { Wrote out.old 0 (lines_at (length out.old) strip.now place).text out.new result.length }
    ensures next_value { result.next ≡ (lines_at (length out.old) strip.now place).next }
    ensures length_in_bounds { (result.length ≤ length out.new) × (result.length ≡ length (take result.length out.new)) }
{
    let mut length: usize = 0;
    let mut reader = Reader { strip, place };
    while LINE <= out.len() - length {
        let Ok(Some((entry, _))) = reader.next() else {
            break;
        };
        length += entry_line(&mut out[length..], entry);
    }
    let next = reader.place;
    Lines { length, next }
}

// The part of the strip buffer whose entries are printed: nothing where the answer is a refusal.
pub fn shown_part(strip: &[u8], answer: Result<Answer, Refusal>) -> &[u8]
    ensures { result.now ≡ shown_part (answer_meaning answer) strip.now }
{
    shown_by_numbers(strip, Numbers::of(answer))
}

// The same of any four numbers.
#[tactic(auto, unfolding(format::specs::Pieces::shown_part))]
pub fn shown_by_numbers(strip: &[u8], answer: Numbers) -> &[u8]
    ensures { result.now ≡ shown_part (numbers_meaning answer) strip.now }
{
    if answer.number != 0 {
        return &[];
    }
    &strip[..answer.length.min(strip.len())]
}
