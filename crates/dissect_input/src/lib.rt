// What the program makes of its input: version, walk, data.
#![tactic(auto)]

ghost use Rattle.std.specs.Prelude.{◌≡◌, ◌≤◌, length, IfOk};
ghost use Rattle.format.specs.Print.{count_of, program_of};
ghost use Rattle.walk_answer.specs.Answers.{Promised};

use refusal::Refusal;
use util::read_be_u32;
use walk::{Answer, walk_by_number};

// The most bytes of input.
pub const MAX_INPUT: usize = 2050;

// The program's refusals of too much and too little input come before those of the walk that is named.
#[tactic(auto, unfolding(format::specs::Print::program_of, format::specs::Walks::answer_of, format::specs::Walks::strip_of))]
pub fn run(input: &[u8], strip: &mut [u8]) -> Result<Answer, Refusal>
    ensures walked { Promised (program_of input.now) strip.old result strip.new }
    ensures length_in_bounds { IfOk result (λ a. a.length ≤ length strip.new) }
{
    if MAX_INPUT < input.len() {
        return Err(Refusal::TooMuch);
    }
    let [version, walk, data @ ..] = input else {
        return Err(Refusal::TooLittle);
    };
    walk_by_number(*version, *walk, data, count_of(data), 0, strip)
}

// An update's count: its first four bytes.
fn count_of(data: &[u8]) -> u32
    ensures { result ≡ count_of «data».now }
{
    if data.len() < 4 {
        return 0;
    }
    read_be_u32(data, 0)
}
