// The program: reads version, walk and data from standard input, and writes the text of the strip, the first line and a
// line an entry.
#![tactic(auto)]

ghost use Rattle.std.specs.Prelude.{◌≡◌, ◌+◌, ◌≤◌, length, drop, IfOk, OnOk, IfSome};
ghost use Rattle.std.specs.Io.KnownBytes.{Appends};
ghost use Rattle.format.specs.Bytes.{part};
ghost use Rattle.format.specs.Print.{printed};
ghost use Rattle.format.specs.Pieces.{Left};

use dissect_input::{MAX_INPUT, run};
use print_lines::{LINE, answer_line};
use print_listing::{Lines, put_lines, shown_part};
use read_input::read_full;
use std::io;
use std::io::{Read, Write};

// The room of the strip's buffer, and of the one for lines.
const ROOM: usize = 65536;

fn main(rt: HostRuntime) -> io::Result<()> {
    dissect(&mut rt.stdin(), &mut io::writer(&rt))
}

// The program over any reader and writer: what is written is the text of all that is there to read.
fn dissect<R: Read, W: Write>(from: &mut R, to: &mut W) -> io::Result<()>
    ensures { OnOk result (IfSome (R.remaining from.old) (λ input. Appends (W.contents to.old) (W.contents to.new) (printed input))) }
{
    // One byte more than the most input, so that more is seen.
    let mut input = [0u8; MAX_INPUT + 1];
    let n = read_full(from, &mut input)?;
    write_text(to, &input[..n])?;
    Ok(())
}

// Writes the text of an input piece by piece, and answers how many bytes went out: all of it.
fn write_text<W: Write>(to: &mut W, input: &[u8]) -> io::Result<usize>
    ensures count { IfOk result (λ n. n ≡ length (printed input.now)) }
    ensures bytes { OnOk result (Appends (W.contents to.old) (W.contents to.new) (printed input.now)) }
{
    let mut strip = [0u8; ROOM];
    let answer = run(input, &mut strip);
    let mut line = [0u8; LINE];
    let k = answer_line(&mut line, answer);
    let written = write_piece(to, input, 0, &line[..k])?;
    write_entries(to, input, written, shown_part(&strip, answer))
}

// The lines after the first.
fn write_entries<W: Write>(
    to: &mut W,
    input: &[u8],
    first: usize,
    strip: &[u8],
) -> io::Result<usize>
    requires { Left (printed input.now) first strip.now 0 }
    ensures count { IfOk result (λ n. n ≡ length (printed input.now)) }
    ensures bytes { OnOk result (Appends (W.contents to.old) (W.contents to.new) (drop first (printed input.now))) }
{
    let mut out = [0u8; ROOM];
    let mut written = first;
    let mut place: usize = 0;
    loop {
        let Lines { length, next } = put_lines(&mut out, strip, place);
        if length == 0 {
            break;
        }
        written = write_piece(to, input, written, &out[..length])?;
        place = next;
    }
    Ok(written)
}

// Writes the bytes of the input's text that come after so many. The input is there for the contract: a caller shows that
// the piece is the next one.
fn write_piece<W: Write>(
    to: &mut W,
    input: &[u8],
    written: usize,
    piece: &[u8],
) -> io::Result<usize>
    requires piece_value { piece.now ≡ part (printed input.now) written (length piece.now) }
    requires piece_in_bounds { written + length piece.now ≤ length (printed input.now) }
    ensures count { IfOk result (λ n. n ≡ written + length piece.now) }
    ensures bytes { OnOk result (Appends (W.contents to.old) (W.contents to.new) piece.now) }
{
    to.write_all(piece)?;
    Ok(written + piece.len())
}
