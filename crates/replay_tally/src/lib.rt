// All calls of a file: how many there are, of each walk or block and number, and which do not agree with the definitions.
#![tactic(auto)]

ghost use Rattle.std.specs.Prelude.{◌≡◌, length};
ghost use Rattle.format.specs.Cut.{after};
ghost use Rattle.replay_call.specs.Stored.{is_of};
ghost use Rattle.replay_tally.specs.Calls.{all_replayed, calls, count_of, differs, first_of, replayed_to_first};

use replay_agreement::agrees;
use replay_call::Calls;

// How many calls a file has, and where the last of them ends: at the file's end, unless the file is damaged.
#[derive(Clone, Copy, PartialEq, Eq, Debug)]
pub struct Whole {
    pub calls: usize,
    pub end: usize,
}

pub fn whole_calls(file: &[u8], most: usize) -> Whole
    ensures calls_value { result.calls ≡ length (calls most file.now) }
    ensures end_value { result.end ≡ after 0 (calls most file.now) }
{
    let mut whole = Whole { calls: 0, end: 0 };
    for call in Calls::new(file, most) {
        whole.calls += 1;
        whole.end = call.end();
    }
    whole
}

// How many calls are of this walk or block and have this number as their stored answer's.
pub fn count_calls(file: &[u8], most: usize, walk: u8, number: u8) -> usize
    ensures { result ≡ count_of (is_of file.now walk number) (calls most file.now) }
{
    Calls::new(file, most)
        .filter(|call| call.is_of(walk, number))
        .count()
}

// How many calls do not agree with the definitions.
pub fn count_different(file: &[u8], strip: &mut [u8]) -> usize
    ensures value { result ≡ count_of (differs file.now) (calls (length strip.old) file.now) }
    ensures strip_after { strip.new ≡ all_replayed file.now strip.old }
{
    let mut different = 0;
    for call in Calls::new(file, strip.len()) {
        if !agrees(&call, strip) {
            different += 1;
        }
    }
    different
}

// How many calls stand before the first that does not agree.
pub fn first_different(file: &[u8], strip: &mut [u8]) -> usize
    ensures value { result ≡ first_of (differs file.now) (calls (length strip.old) file.now) }
    ensures strip_after { strip.new ≡ replayed_to_first file.now strip.old }
{
    let mut agreed = 0;
    for call in Calls::new(file, strip.len()) {
        if !agrees(&call, strip) {
            return agreed;
        }
        agreed += 1;
    }
    agreed
}
