// Replays files of stored calls (samples/README.md), which its arguments name: for each file how many calls it has, by walk
// or block and by the number of the stored answer, and how many of them do not agree with crates `walk` and `trailer`.
#![tactic(auto)]

mod buffers;

use buffers::{FILE, ROOM, file_buffer, strip_buffer};
use read_input::read_full;
use replay_tally::{count_calls, count_different, first_different, whole_calls};
use replay_text::{line, number, word};
use std::env::{Env, FillError};
use std::fs::Files;
use std::io::{Read, Write};
use std::{fs, io, str};

fn main(rt: HostRuntime) -> io::Result<()> {
    let mut to = io::writer(&rt);
    let mut path = [0u8; 4096];
    for i in 1..usize::MAX {
        let n = match rt.arg(i, &mut path) {
            Ok(n) => n,
            Err(FillError::TooLong) => 0,
            Err(FillError::NotPresent) => break,
        };
        replay_argument(&rt, &mut to, &path[..n])?;
    }
    Ok(())
}

fn replay_argument(files: &impl Files, to: &mut impl Write, path: &[u8]) -> io::Result<()> {
    word(to, path)?;
    line(to)?;
    // The library opens what is named by text alone.
    let Ok(text) = str::from_utf8(path) else {
        return word(to, b"not opened\n");
    };
    let Ok(mut file) = fs::open(files, text) else {
        return word(to, b"not opened\n");
    };
    replay_file(&mut file, to)
}

fn replay_file(from: &mut impl Read, to: &mut impl Write) -> io::Result<()> {
    let mut file = file_buffer();
    let n = read_full(from, &mut file)?;
    if n == FILE {
        return word(to, b"too long\n");
    }
    print_calls(to, &file[..n])?;
    print_differences(to, &file[..n])
}

// The number of calls, a line for each walk and block with the calls of number 0 to 5, and whether the file ends with a whole call.
fn print_calls(to: &mut impl Write, file: &[u8]) -> io::Result<()> {
    let whole = whole_calls(file, ROOM);
    word(to, b"calls")?;
    number(to, whole.calls as u64)?;
    line(to)?;
    // In the order of their numbers.
    let names: [&[u8]; 5] = [b"headers", b"updates", b"lsas", b"lls", b"trailers"];
    for (walk, name) in names.into_iter().enumerate() {
        word(to, name)?;
        print_numbers(to, file, walk as u8)?;
    }
    if whole.end == file.len() {
        word(to, b"whole\n")?;
    } else {
        word(to, b"damaged at")?;
        number(to, whole.end as u64)?;
        line(to)?;
    }
    Ok(())
}

fn print_numbers(to: &mut impl Write, file: &[u8], walk: u8) -> io::Result<()> {
    for answer in 0..=5 {
        number(to, count_calls(file, ROOM, walk, answer) as u64)?;
    }
    line(to)
}

// How many calls differ, and the index of the first of them.
fn print_differences(to: &mut impl Write, file: &[u8]) -> io::Result<()> {
    let mut strip = strip_buffer();
    let different = count_different(file, &mut strip);
    word(to, b"different")?;
    number(to, different as u64)?;
    line(to)?;
    if different != 0 {
        word(to, b"first")?;
        number(to, first_different(file, &mut strip) as u64)?;
        line(to)?;
    }
    Ok(())
}
