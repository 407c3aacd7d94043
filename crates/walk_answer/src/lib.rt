// The walks by their numbers, a walk's answer, and what walks have in common: their refusals, where an update's first LSA stands, and
// the id of unparsed bytes.
#![tactic(auto)]

ghost use Rattle.std.specs.Prelude.{◌≡◌, ◌≤◌, ◌<◌, length, OnOk, IfErr};
ghost use Rattle.format.specs.Trailer.{limit};
ghost use Rattle.format.specs.Walks.{is_known, refusal, unparsed_id};
ghost use Rattle.refusal.specs.Numbers.{needed_of};
ghost use Rattle.refusal.specs.declared.Refusal.TheVariants.{NoRoom};
ghost use Rattle.walk_answer.specs.Answers.{Names, answer_meaning, numbers_meaning, refusal_meaning};

use refusal::Refusal;
use strip_ids::{v2, v3};

// The walks over a header list, a link-state update and a single LSA.
#[derive(Clone, Copy, PartialEq, Eq, Debug)]
pub enum Walk {
    LsaHeaders,
    LsuLsas,
    Lsa,
}

// The walk that a number names.
impl TryFrom<u8> for Walk {
    type Error = Refusal;

    ghost try_from_gives = { Names };

    fn try_from(number: u8) -> Result<Walk, Refusal> {
        match number {
            0 => Ok(Walk::LsaHeaders),
            1 => Ok(Walk::LsuLsas),
            2 => Ok(Walk::Lsa),
            _ => Err(Refusal::NoWalk),
        }
    }
}

// What a walk answers where it is not refused: the strip's length, how many records it has, and how many bytes are left after
// them.
#[derive(Clone, Copy, PartialEq, Eq, Debug)]
pub struct Answer {
    pub length: usize,
    pub records: usize,
    pub tail: usize,
}

// An answer as four numbers: 0 or a refusal's number, the strip's length or the length needed, records and tail. Any four are such
// an answer, also where no walk gives it.
#[derive(Clone, Copy, PartialEq, Eq, Debug)]
pub struct Numbers {
    pub number: u8,
    pub length: usize,
    pub records: usize,
    pub tail: usize,
}

impl Numbers {
    pub fn of(answer: Result<Answer, Refusal>) -> Numbers
        ensures { numbers_meaning result ≡ answer_meaning answer }
    {
        match answer {
            Ok(accepted) => Numbers {
                number: 0,
                length: accepted.length,
                records: accepted.records,
                tail: accepted.tail,
            },
            Err(refusal) => Numbers {
                number: refusal.number(),
                length: refusal.needed(),
                records: 0,
                tail: 0,
            },
        }
    }
}

// The largest data and offset, which keep every place within 32 bits.
pub const MAX_DATA: usize = 65535;

pub const MAX_OFFSET: u64 = 4294901760;

// The first LSA of an update follows the number of LSAs.
pub const FIRST_LSA: usize = 4;

// The first refusal, if there is one, of a call that needs this many bytes at least.
pub fn check_call(version: u8, data: &[u8], offset: u64, least: usize) -> Result<(), Refusal>
    ensures number { refusal_meaning result ≡ refusal version «data».now offset least }
    ensures needs_nothing { IfErr result (λ r. needed_of r ≡ 0) }
{
    if !is_known(version) {
        return Err(Refusal::NoVersion);
    }
    check_limits(data, offset)?;
    if data.len() < least {
        return Err(Refusal::TooLittle);
    }
    Ok(())
}

pub fn is_known(version: u8) -> bool
    ensures { result ≡ is_known version }
{
    version == 2 || version == 3
}

// The refusals that every call has: the data or the offset would take a place past 32 bits.
#[inline(always)]
pub fn check_limits(data: &[u8], offset: u64) -> Result<(), Refusal>
    ensures number { refusal_meaning result ≡ limit «data».now offset }
    ensures needs_nothing { IfErr result (λ r. needed_of r ≡ 0) }
{
    if MAX_DATA < data.len() {
        return Err(Refusal::TooMuch);
    }
    if MAX_OFFSET < offset {
        return Err(Refusal::TooFar);
    }
    Ok(())
}

// The last refusal of a walk: the lent buffer has no room for a strip of this length.
pub fn check_room(buffer: &[u8], needed: usize) -> Result<(), Refusal>
    ensures ok { OnOk result (needed ≤ length buffer.now) }
    ensures err { IfErr result (λ r. (r ≡ NoRoom needed) × (length buffer.now < needed)) }
{
    if buffer.len() < needed {
        return Err(Refusal::NoRoom(needed));
    }
    Ok(())
}

// The id of unparsed bytes.
pub fn unparsed_id(version: u8) -> u8
    ensures { result ≡ unparsed_id version }
{
    if version == 2 {
        v2::UNPARSED
    } else {
        v3::UNPARSED
    }
}
