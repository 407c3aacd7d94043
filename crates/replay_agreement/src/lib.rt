// One stored call, replayed: the walk, or the reading of a block, is called on a buffer that was filled, and its answer and every byte of the buffer
// are compared with what is stored.
#![tactic(auto)]

ghost use Rattle.std.specs.Prelude.{◌≡◌, ◌≤◌, length};
ghost use Rattle.trailer.specs.Answers.{block_meaning};
ghost use Rattle.walk_answer.specs.Answers.{Promised, answer_meaning};
ghost use Rattle.replay_call.specs.Stored.{room_at};
ghost use Rattle.replay_agreement.specs.Agree.{agrees_at, call_of, left_at, outcome_at};
ghost use Rattle.replay_agreement.specs.Blocks.{stored};

use refusal::Refusal;
use replay_call::{CALL, Call};
use replay_expected::{FILL, is_answer, is_buffer};
use trailer::{Block, push_auth_trailer, push_lls};
use util::{read_be_u32, read_be_u64};
use walk::walk_by_number;
use walk_answer::Answer;

// The numbers of the blocks in a stored call; those below are walks.
const LLS: u8 = 3;

const AUTH_TRAILER: u8 = 4;

// Whether a call agrees with the definitions. The strip's buffer has at least the call's room.
#[tactic(auto, unfolding(crate::specs::Agree::agrees_at, crate::specs::Agree::left_at, crate::specs::Agree::outcome_at))]
pub fn agrees(call: &Call<'_>, strip: &mut [u8]) -> bool
    requires { room_at call.now.file.now call.now.at ≤ length strip.old }
    ensures value { result ≡ agrees_at call.now.file.now call.now.at }
    ensures strip_after { strip.new ≡ left_at call.now.file.now call.now.at strip.old }
{
    let Call { file, at } = *call;
    let count = read_be_u32(file, at + 2);
    let offset = read_be_u64(file, at + 6);
    let room = read_be_u32(file, at + 14) as usize;
    let start = at + CALL;
    let q = start + read_be_u32(file, at + 18) as usize;
    let lent = &mut strip[..room];
    lent.fill(FILL);
    let answer = call_by_number(file[at], file[at + 1], &file[start..q], count, offset, lent);
    is_answer(answer, file, q) && is_buffer(lent, file, q)
}

// The walk that a number names, or the reading of a block.
#[tactic(auto, using(crate::proofs::Blocks::as_answer, crate::proofs::Blocks::as_strip), unfolding(crate::specs::Agree::call_of))]
fn call_by_number(
    version: u8,
    number: u8,
    data: &[u8],
    count: u32,
    offset: u64,
    strip: &mut [u8],
) -> Result<Answer, Refusal>
    ensures { Promised (call_of version number «data».now count offset) strip.old result strip.new }
{
    match number {
        LLS => stored_answer(push_lls(data, offset, strip)),
        AUTH_TRAILER => stored_answer(push_auth_trailer(data, offset, strip)),
        _ => walk_by_number(version, number, data, count, offset, strip),
    }
}

// A block's answer as it is stored: its length in the place of the records.
fn stored_answer(answer: Result<Option<Block>, Refusal>) -> Result<Answer, Refusal>
    ensures { answer_meaning result ≡ stored (block_meaning answer) }
{
    let found = answer?.unwrap_or(Block { strip: 0, block: 0 });
    Ok(Answer {
        length: found.strip,
        records: found.block,
        tail: 0,
    })
}
