// The strip reader, and the part of a packet that an entry of a strip names.
#![tactic(auto)]

ghost use Rattle.std.specs.Prelude.{◌≡◌};
ghost use Rattle.format.specs.Strip.{step_at};
ghost use Rattle.strip_step.specs.Answers.{step_meaning};
ghost use Rattle.strip_reader.specs.After.{place_after};

use refusal::Refusal;
use strip_step::{Entry, step_at};

pub mod part;

// A strip that was lent, and the place in it where the next step reads.
#[derive(Clone, Copy, PartialEq, Eq, Debug)]
pub struct Reader<'a> {
    pub strip: &'a [u8],
    pub place: usize,
}

impl<'a> Reader<'a> {
    // At the strip's front.
    pub fn new(strip: &'a [u8]) -> Reader<'a>
        ensures strip { result.strip ≡ strip.entry }
        ensures place { result.place ≡ 0 }
    {
        Reader { strip, place: 0 }
    }

    // At another place of the same strip.
    pub fn at(self, place: usize) -> Reader<'a>
        ensures strip { result.strip ≡ self.entry.strip }
        ensures place { result.place ≡ place }
    {
        Reader { place, ..self }
    }

    // The entry at the place and the next place, nothing at the end, or a refusal.
    pub fn step(self) -> Result<Option<(Entry, usize)>, Refusal>
        ensures { step_meaning result ≡ step_at self.entry.strip.now self.entry.place }
    {
        step_at(self.strip, self.place)
    }

    // The same, and the reader goes on to the next place.
    pub fn next(&mut self) -> Result<Option<(Entry, usize)>, Refusal>
        ensures step { step_meaning result ≡ step_at self.old.strip.now self.old.place }
        ensures strip { self.new.strip ≡ self.old.strip }
        ensures place { self.new.place ≡ place_after result self.old.place }
    {
        let step = self.step();
        if let Ok(Some((_, next))) = step {
            self.place = next;
        }
        step
    }
}

// A step for whoever holds no reader.
pub fn step_from(strip: &[u8], place: usize) -> Result<Option<(Entry, usize)>, Refusal>
    ensures { step_meaning result ≡ step_at strip.now place }
{
    Reader::new(strip).at(place).step()
}
