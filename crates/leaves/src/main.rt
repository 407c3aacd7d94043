// Runs the leaves on vectors and prints what they answer: octets of every prefix length, prefix comparison, newness,
// the readers, and every kind of entry written and read back, with each refusal of the step.
#![tactic(auto, unfolding(format::specs::Strip::code))]

mod newness;
mod prefixes;
mod readers;
mod strips;

use refusal::Refusal;
use replay_text::{number, word};
use std::io;
use std::io::Write;

fn main(rt: HostRuntime) -> io::Result<()> {
    let mut to = io::writer(&rt);
    prefixes::run(&mut to)?;
    newness::run(&mut to)?;
    readers::run(&mut to)?;
    strips::run(&mut to)
}

// Where an answer would stand.
fn refused(to: &mut impl Write, refusal: Refusal) -> io::Result<()> {
    word(to, b" refused")?;
    number(to, refusal.number() as u64)
}
