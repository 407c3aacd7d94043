// What is stored of an answer: whether an answer and the buffer after the call are the ones that are stored at a place of a
// file.
#![tactic(auto)]

ghost use Rattle.std.specs.Prelude.{◌≡◌, ◌+◌, ◌≤◌, ◌↔◌, length, IsTrue};
ghost use Rattle.format.specs.Bytes.{same_bytes};
ghost use Rattle.walk_answer.specs.Answers.{answer_meaning, numbers_meaning};
ghost use Rattle.replay_call.specs.Stored.{kept_at};
ghost use Rattle.replay_expected.specs.Expected.{lent, same_answer, stored_answer, stored_buffer};

use refusal::Refusal;
use replay_call::{ANSWER, kept_at};
use util::read_be_u32;
use walk_answer::{Answer, Numbers};

// What the buffer holds before a call.
pub const FILL: u8 = 165;

// Whether the answer is the one that is stored at q.
pub fn is_answer(a: Result<Answer, Refusal>, file: &[u8], q: usize) -> bool
    requires { q + 13 ≤ length file.now }
    ensures { result ≡ same_answer (answer_meaning a) (stored_answer file.now q) }
{
    are_numbers(Numbers::of(a), file, q)
}

// The same of any four numbers.
#[tactic(auto, unfolding(crate::specs::Expected::same_answer))]
pub fn are_numbers(a: Numbers, file: &[u8], q: usize) -> bool
    requires { q + 13 ≤ length file.now }
    ensures { result ≡ same_answer (numbers_meaning a) (stored_answer file.now q) }
{
    let number = file[q];
    let length = read_be_u32(file, q + 1) as usize;
    let records = read_be_u32(file, q + 5) as usize;
    let tail = read_be_u32(file, q + 9) as usize;
    number == a.number && length == a.length && records == a.records && tail == a.tail
}

// Whether the buffer is the strip that is stored after the answer at q, and then as it was filled.
pub fn is_buffer(strip: &[u8], file: &[u8], q: usize) -> bool
    requires { q + 13 + kept_at file.now q ≤ length file.now }
    ensures { result ≡ same_bytes strip.now (stored_buffer file.now q (length strip.now)) }
{
    let start = q + ANSWER;
    let kept = &file[start..start + kept_at(file, q)];
    strip.strip_prefix(kept).is_some_and(is_filled)
}

fn is_filled(rest: &[u8]) -> bool
    ensures { IsTrue result ↔ (rest.now ≡ lent (length rest.now)) }
{
    rest.iter().all(|&byte| byte == FILL)
}
