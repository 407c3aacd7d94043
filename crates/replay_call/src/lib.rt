// A stored call (samples/README.md has the format): whether one stands whole at a place of a file, how long it is, and of
// which walk or block and number it is; and all calls of a file, one after another.
#![tactic(auto)]

ghost use Rattle.std.specs.Prelude.{◌≡◌, ◌+◌, ◌≤◌, length, MatchOption};
ghost use Rattle.std.proofs.Math.Option.{none, some};
ghost use Rattle.replay_call.specs.Stored.{call_rule, call_size, is_call, is_of, kept_at, size_at};

use util::read_be_u32;

// The bytes before the data, and those of the answer after it.
pub const CALL: usize = 22;

pub const ANSWER: usize = 13;

// The largest number that names a walk or a block, and the largest of a refusal.
const WALKS: u8 = 4;

const NUMBERS: u8 = 5;

// A call that stands whole at a place of a file.
#[derive(Clone, Copy, PartialEq, Eq, Debug)]
pub struct Call<'a> {
    pub file: &'a [u8],
    pub at: usize,
    pub ghost whole: { at + call_size file.now at ≤ length file.now },
}

impl<'a> Call<'a> {
    // The one at a place, if one stands there that lends no more room than `most`.
    #[tactic(auto, using(crate::proofs::Rule::laws))]
    pub fn at(file: &'a [u8], at: usize, most: usize) -> Option<Call<'a>>
        requires { at ≤ length file.now }
        ensures { MatchOption result (call_rule most file.now at ≡ none)
            (λ c. (c.file.now ≡ file.now) × (c.at ≡ at) × (call_rule most file.now at ≡ some (call_size file.now at))) }
    {
        let left = file.len() - at;
        if left < CALL + ANSWER {
            return None;
        }
        let size = read_be_u32(file, at + 18) as usize;
        if left - (CALL + ANSWER) < size {
            return None;
        }
        let kept = kept_at(file, at + CALL + size);
        if left - (CALL + ANSWER) - size < kept {
            return None;
        }
        if !is_call(file, at, size, most) {
            return None;
        }
        Some(Call { file, at })
    }

    // Whether it is of this walk, and its stored answer has this number.
    #[tactic(auto, unfolding(crate::specs::Stored::is_of))]
    pub fn is_of(&self, walk: u8, number: u8) -> bool
        ensures { result ≡ is_of self.now.file.now walk number self.now.at }
    {
        let size = read_be_u32(self.file, self.at + 18) as usize;
        self.file[self.at + 1] == walk && self.file[self.at + CALL + size] == number
    }

    // The place after it.
    pub fn end(&self) -> usize
        ensures { result ≡ self.now.at + call_size self.now.file.now self.now.at }
    {
        let answer = self.at + CALL + read_be_u32(self.file, self.at + 18) as usize;
        answer + ANSWER + kept_at(self.file, answer)
    }
}

// The length of the strip that is stored after the answer at q.
pub fn kept_at(file: &[u8], q: usize) -> usize
    requires { q + 13 ≤ length file.now }
    ensures { result ≡ kept_at file.now q }
{
    if file[q] == 0 {
        read_be_u32(file, q + 1) as usize
    } else {
        0
    }
}

// Whether the numbers of the call at a place, which has `size` bytes of data, can be a call's.
#[tactic(auto, unfolding(crate::specs::Stored::is_call))]
fn is_call(file: &[u8], at: usize, size: usize, most: usize) -> bool
    requires size_in_bounds { at + 35 + size ≤ length file.now }
    requires size_value { size ≡ size_at file.now at }
    ensures { result ≡ is_call most file.now at }
{
    file[at + 1] <= WALKS
        && file[at + CALL + size] <= NUMBERS
        && read_be_u32(file, at + 14) as usize <= most
}

// The calls of a file, end to end from its first byte, as far as whole calls stand that lend no more room than `most`.
#[derive(Drop)]
pub struct Calls<'a> {
    file: &'a [u8],
    most: usize,
    at: usize,
    ghost within: { at ≤ length file.now },
}

impl<'a> Calls<'a> {
    ghost use Rattle.replay_call.specs.Calls.{left_of, places_from};

    pub fn new(file: &'a [u8], most: usize) -> Calls<'a>
        ensures { left_of result ≡ places_from most file.now 0 }
    {
        Calls { file, most, at: 0 }
    }
}

impl<'a> Iterator for Calls<'a> {
    ghost use Rattle.std.specs.Iterator.{YieldsFirstBy, item_count};
    ghost use Rattle.replay_call.specs.Calls.{left_of, place_of};

    type Item = Call<'a>;

    ghost next_gives = { YieldsFirstBy place_of left_of };

    ghost remaining = { item_count left_of };

    fn next(&mut self) -> Option<Call<'a>> {
        let call = Call::at(self.file, self.at, self.most)?;
        self.at = call.end();
        Some(call)
    }
}
