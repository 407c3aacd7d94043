// Newness around MaxAge, around MaxAgeDiff and around the sign of the sequence number.
use crate::refused;
use header::{LsaHeader, Newness, newer};
use replay_text::{line, number, word};
use std::io;
use std::io::Write;

pub fn run(to: &mut impl Write) -> io::Result<()> {
    sequences(to)?;
    checksums(to)?;
    ages(to)?;
    refusals(to)
}

fn sequences(to: &mut impl Write) -> io::Result<()> {
    print(to, 2147483649, 0, 0, 2147483650, 0, 0)?;
    print(to, 2147483650, 0, 0, 2147483649, 0, 0)?;
    print(to, 2147483647, 0, 0, 2147483648, 0, 0)?;
    print(to, 2147483648, 0, 0, 2147483647, 0, 0)?;
    print(to, 4294967295, 0, 0, 0, 0, 0)?;
    print(to, 0, 0, 0, 4294967295, 0, 0)?;
    print(to, 0, 0, 0, 1, 65535, 3600)?;
    print(to, 2147483648, 0, 0, 4294967295, 0, 0)
}

fn checksums(to: &mut impl Write) -> io::Result<()> {
    print(to, 7, 1, 0, 7, 2, 0)?;
    print(to, 7, 2, 0, 7, 1, 3600)?;
    print(to, 7, 32767, 0, 7, 32768, 0)?;
    print(to, 7, 65535, 0, 7, 0, 0)
}

fn ages(to: &mut impl Write) -> io::Result<()> {
    print(to, 7, 9, 3600, 7, 9, 3600)?;
    print(to, 7, 9, 3600, 7, 9, 3599)?;
    print(to, 7, 9, 3599, 7, 9, 3600)?;
    print(to, 7, 9, 3600, 7, 9, 0)?;
    print(to, 7, 9, 0, 7, 9, 900)?;
    print(to, 7, 9, 0, 7, 9, 901)?;
    print(to, 7, 9, 900, 7, 9, 0)?;
    print(to, 7, 9, 901, 7, 9, 0)?;
    print(to, 7, 9, 2698, 7, 9, 3599)?;
    print(to, 7, 9, 2699, 7, 9, 3599)?;
    print(to, 7, 9, 5, 7, 9, 5)
}

fn refusals(to: &mut impl Write) -> io::Result<()> {
    print(to, 7, 9, 3601, 7, 9, 0)?;
    print(to, 7, 9, 0, 7, 9, 3601)?;
    print(to, 7, 9, 65535, 8, 9, 65535)
}

fn print(to: &mut impl Write, s: u32, c: u16, a: u16, t: u32, d: u16, b: u16) -> io::Result<()> {
    word(to, b"newness")?;
    show(to, s, c, a)?;
    show(to, t, d, b)?;
    match newer(with(s, c, a), with(t, d, b)) {
        Ok(Newness::First) => word(to, b" first")?,
        Ok(Newness::Second) => word(to, b" second")?,
        Ok(Newness::Same) => word(to, b" same")?,
        Err(refusal) => refused(to, refusal)?,
    }
    line(to)
}

fn show(to: &mut impl Write, sequence: u32, checksum: u16, age: u16) -> io::Result<()> {
    number(to, sequence as u64)?;
    number(to, checksum as u64)?;
    number(to, age as u64)
}

fn with(sequence_number: u32, checksum: u16, age: u16) -> LsaHeader {
    LsaHeader {
        age,
        ls_type: 1,
        link_state_id: 0,
        advertising_router: 0,
        sequence_number,
        checksum,
        length: 20,
    }
}
