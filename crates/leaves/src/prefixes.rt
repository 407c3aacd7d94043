// Octets of every prefix length, and comparisons.
use crate::refused;
use replay_text::{line, number, word};
use std::io;
use std::io::Write;
use tlv::{Prefix, compare_prefixes, prefix_octets};

pub fn run(to: &mut impl Write) -> io::Result<()> {
    every_length(to)?;
    comparisons(to)
}

fn every_length(to: &mut impl Write) -> io::Result<()> {
    for length in 0..=u8::MAX {
        print_octets(to, length)?;
    }
    Ok(())
}

fn comparisons(to: &mut impl Write) -> io::Result<()> {
    let zeros = [0u8; 16];
    let mut first = [0u8; 16];
    first[0] = 128;
    let mut middle = [0u8; 16];
    middle[8] = 128;
    let mut last = [0u8; 16];
    last[15] = 1;
    print_comparison(to, 0, first, 0, zeros)?;
    print_comparison(to, 1, first, 1, zeros)?;
    print_comparison(to, 64, middle, 64, zeros)?;
    print_comparison(to, 65, middle, 65, zeros)?;
    print_comparison(to, 127, zeros, 127, last)?;
    print_comparison(to, 128, zeros, 128, last)?;
    print_comparison(to, 128, last, 128, last)?;
    print_comparison(to, 64, zeros, 63, zeros)?;
    print_comparison(to, 129, zeros, 129, zeros)?;
    print_comparison(to, 128, zeros, 129, zeros)?;
    print_comparison(to, 129, zeros, 128, zeros)?;
    print_comparison(to, 255, zeros, 0, zeros)
}

fn print_octets(to: &mut impl Write, length: u8) -> io::Result<()> {
    word(to, b"octets")?;
    number(to, length as u64)?;
    match prefix_octets(length) {
        Some(n) => number(to, n as u64)?,
        None => word(to, b" none")?,
    }
    line(to)
}

fn print_comparison(to: &mut impl Write, l: u8, a: [u8; 16], m: u8, b: [u8; 16]) -> io::Result<()> {
    word(to, b"compare")?;
    number(to, l as u64)?;
    number(to, m as u64)?;
    let answer = compare_prefixes(
        Prefix {
            length: l,
            octets: &a,
        },
        Prefix {
            length: m,
            octets: &b,
        },
    );
    match answer {
        Ok(true) => word(to, b" same")?,
        Ok(false) => word(to, b" different")?,
        Err(refusal) => refused(to, refusal)?,
    }
    line(to)
}
