// The three walks, passed on, and the one that a number names. Each refuses what does not fit, measures the strip, compares it with
// the room, and only then writes.
#![tactic(auto, unfolding(format::specs::Walks::walk_of))]

ghost use Rattle.format.specs.Walks.{walk_of, named_of};
ghost use Rattle.walk_answer.specs.Answers.{Promised, walk_meaning};

use refusal::Refusal;
pub use walk_answer::{Answer, Walk};
pub use walk_headers::push_lsa_headers;
pub use walk_lsa::push_lsa;
pub use walk_update::push_lsu_lsas;

// A walk, for programs. The count is an update's alone.
pub fn walk(
    version: u8,
    walk: Walk,
    data: &[u8],
    count: u32,
    offset: u64,
    strip: &mut [u8],
) -> Result<Answer, Refusal>
    ensures { Promised (walk_of version (walk_meaning walk) «data».now count offset) strip.old result strip.new }
{
    match walk {
        Walk::LsaHeaders => push_lsa_headers(version, data, offset, strip),
        Walk::LsuLsas => push_lsu_lsas(version, data, count, offset, strip),
        Walk::Lsa => push_lsa(version, data, offset, strip),
    }
}

// The walk that a number names.
pub fn walk_by_number(
    version: u8,
    number: u8,
    data: &[u8],
    count: u32,
    offset: u64,
    strip: &mut [u8],
) -> Result<Answer, Refusal>
    ensures { Promised (named_of version number «data».now count offset) strip.old result strip.new }
{
    walk(version, Walk::try_from(number)?, data, count, offset, strip)
}
