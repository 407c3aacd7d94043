// The lines that the program prints, each from the front of a lent buffer.
#![tactic(auto, using(crate::proofs::Room::lengths))]

ghost use Rattle.std.specs.Prelude.{◌≡◌, ◌≤◌, ◌∷◌, ◌++◌, length, take};
ghost use Rattle.format.specs.Wrote.{Wrote};
ghost use Rattle.format.specs.Print.{line, line_room, first_line, text, field, spaced, dotted, hex, ip4_word, ip6_word};
ghost use Rattle.strip_put.specs.Writer.{HasRoom, Writes};
ghost use Rattle.strip_step.specs.Answers.{entry_meaning};
ghost use Rattle.walk_answer.specs.Answers.{answer_meaning, numbers_meaning};
ghost use Rattle.print_lines.specs.Text.{fitting};

use print_digits::{put_dotted, put_hex, put_place, put_spaced};
use refusal::Refusal;
use strip_put::Writer;
use strip_step::{Entry, Field};
use walk_answer::{Answer, Numbers};

// No line is longer.
pub const LINE: usize = 160;

// The line of an entry. A buffer shorter than LINE is left as it is. What follows the text's definition is what a caller
// needs to lend out the text alone.
pub fn entry_line(out: &mut [u8], entry: Entry) -> usize
    ensures wrote { Wrote out.old 0 (fitting (length out.old) (line (entry_meaning entry))) out.new result }
    ensures upper_bound { (result ≤ length out.new) × (result ≡ length (take result out.new)) }
{
    if out.len() < LINE {
        return 0;
    }
    let mut writer = Writer::new(out, 0);
    put_line(&mut writer, entry);
    writer.at
}

// The first line.
pub fn answer_line(out: &mut [u8], answer: Result<Answer, Refusal>) -> usize
    ensures wrote { Wrote out.old 0 (fitting (length out.old) (first_line (answer_meaning answer))) out.new result }
    ensures upper_bound { (result ≤ length out.new) × (result ≡ length (take result out.new)) }
{
    numbers_line(out, Numbers::of(answer))
}

// The same of any four numbers.
pub fn numbers_line(out: &mut [u8], answer: Numbers) -> usize
    ensures wrote { Wrote out.old 0 (fitting (length out.old) (first_line (numbers_meaning answer))) out.new result }
    ensures upper_bound { (result ≤ length out.new) × (result ≡ length (take result out.new)) }
{
    if out.len() < LINE {
        return 0;
    }
    let mut writer = Writer::new(out, 0);
    put_answer(&mut writer, answer);
    writer.at
}

#[inline(always)]
fn put_answer(out: &mut Writer<'_>, answer: Numbers)
    requires { HasRoom out.old line_room }
    ensures { Writes out.old (first_line (numbers_meaning answer)) out.new }
{
    if answer.number == 0 {
        out.put(b"ok");
        put_spaced(out, answer.records as u64);
        put_spaced(out, answer.tail as u64);
        put_spaced(out, answer.length as u64);
    } else {
        let needed = answer.length;
        out.put(b"refused");
        put_spaced(out, answer.number as u64);
        put_spaced(out, needed as u64);
    }
    out.put_u8(b'\n');
}

#[inline(always)]
fn put_line(out: &mut Writer<'_>, entry: Entry)
    requires { HasRoom out.old line_room }
    ensures { Writes out.old (line (entry_meaning entry)) out.new }
{
    put_text(out, entry);
    out.put_u8(b'\n');
}

#[inline(always)]
fn put_text(out: &mut Writer<'_>, entry: Entry)
    requires { HasRoom out.old line_room }
    ensures { Writes out.old (text (entry_meaning entry)) out.new }
{
    match entry {
        Entry::Open(f, entries) => put_number(out, b"open", f, entries as u64),
        Entry::Close => out.put(b"close"),
        Entry::U8(f, value) => put_number(out, b"u8", f, value as u64),
        Entry::U16(f, value) => put_number(out, b"u16", f, value as u64),
        Entry::U32(f, value) => put_number(out, b"u32", f, value as u64),
        Entry::Ipv4(f, address) => put_ipv4(out, f, address),
        Entry::Ipv6(f, high, low) => put_ipv6(out, f, high, low),
        Entry::Bytes(f) => put_field(out, b"bytes", f),
        Entry::Unreachable(f) => put_field(out, b"never", f),
        Entry::U64(f, value) => put_number(out, b"u64", f, value),
    }
}

// Kind word, id, start and end.
#[inline(always)]
fn put_field(out: &mut Writer<'_>, word: &[u8], f: Field)
    requires line_room_in_bounds { HasRoom out.old line_room }
    requires word_len_bound { length word.now ≤ 5 }
    ensures { Writes out.old (field word.now f.id f.start f.end) out.new }
{
    out.put(word);
    put_place(out, f.id, f.start, f.end);
}

// A field whose value is a number.
#[inline(always)]
fn put_number(out: &mut Writer<'_>, word: &[u8], f: Field, value: u64)
    requires line_room_in_bounds { HasRoom out.old line_room }
    requires word_len_bound { length word.now ≤ 5 }
    ensures { Writes out.old (field word.now f.id f.start f.end ++ spaced value) out.new }
{
    put_field(out, word, f);
    put_spaced(out, value);
}

#[inline(always)]
fn put_ipv4(out: &mut Writer<'_>, f: Field, address: u32)
    requires { HasRoom out.old line_room }
    ensures { Writes out.old (field ip4_word f.id f.start f.end ++ (32 ∷ dotted address)) out.new }
{
    put_field(out, b"ip4", f);
    out.put_u8(b' ');
    put_dotted(out, address);
}

#[inline(always)]
fn put_ipv6(out: &mut Writer<'_>, f: Field, high: u64, low: u64)
    requires { HasRoom out.old line_room }
    ensures { Writes out.old (field ip6_word f.id f.start f.end ++ (32 ∷ (hex 16 high ++ hex 16 low))) out.new }
{
    put_field(out, b"ip6", f);
    out.put_u8(b' ');
    put_hex(out, high, 16);
    put_hex(out, low, 16);
}
