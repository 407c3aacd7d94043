// Every kind of entry, written and read back; the leaves on a body; metrics around LSInfinity; and the end and each refusal
// of the step.
ghost use Rattle.std.specs.Prelude.{◌≡◌, length};
ghost use Rattle.strip_put.specs.Writer.{HasRoom};

use print_lines::{LINE, entry_line};
use replay_text::{line, number, word};
use std::io;
use std::io::Write;
use strip_push::field::{Field, Ipv4, U8, U16, U24, U32, U64, Wide16};
use strip_push::{
    FieldValue, begin_container, end_container, push_at, push_bit_at, push_bytes_at, push_field,
    push_ipv6_at, push_low_bits_at, push_metric24_at,
};
use strip_put::{Part, Writer};
use strip_step::{Entry, step_at};

pub fn run(to: &mut impl Write) -> io::Result<()> {
    let mut strip = [0u8; 130];
    kinds(&mut Writer::new(&mut strip, 0));
    word(to, b"kinds\n")?;
    print_strip(to, &strip)?;
    let mut fields = [0u8; 195];
    let body = b"\xfe\xdc\xba\x98\x76\x54\x32\x10\x01\x23\x45\x67\x89\xab\xcd\xef\x85";
    leaves(&mut Writer::new(&mut fields, 0), Part::new(body, 1000));
    word(to, b"leaves\n")?;
    print_strip(to, &fields)?;
    let mut costs = [0u8; 70];
    metrics(
        &mut Writer::new(&mut costs, 0),
        Part::new(b"\x00\xff\xff\xff\xfe\xff\xff\x00", 1000),
    );
    word(to, b"metrics\n")?;
    print_strip(to, &costs)?;
    refusals(to)
}

// One entry of each kind, with the largest numbers, and the first of them around the others.
fn kinds(strip: &mut Writer)
    requires { HasRoom strip.old 130 }
{
    begin_container(strip, 255, 4294967295..4294967295, 4294967295);
    push_field(strip, 1, 0..1, FieldValue::U8(255));
    push_field(strip, 2, 1..3, FieldValue::U16(65535));
    push_field(strip, 3, 3..7, FieldValue::U32(4294967295));
    push_field(strip, 9, 7..10, FieldValue::Unreachable);
    more_kinds(strip);
}

fn more_kinds(strip: &mut Writer)
    requires { HasRoom strip.old 69 }
{
    push_field(strip, 4, 7..11, FieldValue::Ipv4(3232235777));
    push_field(strip, 5, 11..27, FieldValue::Ipv6(2306139568115548160, 1));
    push_field(strip, 6, 27..65562, FieldValue::Bytes);
    push_field(strip, 7, 34..42, FieldValue::U64(18446744073709551615));
    end_container(strip);
}

// Each leaf on a body that begins at the place 1,000.
fn leaves(strip: &mut Writer, body: Part)
    requires in_bounds { HasRoom strip.old 195 }
    requires body_len { length body.bytes.now ≡ 17 }
{
    push_at::<U8>(strip, 10, body, 0);
    push_bit_at(strip, 11, body, 16, 128);
    push_low_bits_at(strip, 12, body, 16, 128);
    push_at::<U16>(strip, 13, body, 15);
    numbers(strip, body);
}

fn numbers(strip: &mut Writer, body: Part)
    requires in_bounds { HasRoom strip.old 150 }
    requires body_len { length body.bytes.now ≡ 17 }
{
    push_at::<U24>(strip, 14, body, 14);
    push_metric24_at(strip, 15, body, 1);
    push_at::<Wide16>(strip, 16, body, 2);
    push_at::<U32>(strip, 17, body, 13);
    push_at::<U64>(strip, 22, body, 9);
    addresses(strip, body);
}

fn addresses(strip: &mut Writer, body: Part)
    requires in_bounds { HasRoom strip.old 76 }
    requires body_len { length body.bytes.now ≡ 17 }
{
    push_at::<Ipv4>(strip, 18, body, 4);
    push_ipv6_at(strip, 19, body, 1, 16);
    push_ipv6_at(strip, 20, body, 8, 4);
    push_bytes_at(strip, 21, body, 5, 12);
}

// Metrics of 24 bits: the first has all bits, the next three lack one of a byte each. What is left of the strip stays 0.
fn metrics(strip: &mut Writer, body: Part)
    requires in_bounds { HasRoom strip.old 70 }
    requires body_len { length body.bytes.now ≡ 8 }
{
    push_metric24_at(strip, 15, body, 1);
    push_metric24_at(strip, 15, body, 2);
    push_metric24_at(strip, 15, body, 3);
    push_metric24_at(strip, 15, body, 4);
    push_metric24_at(strip, 15, body, 5);
}

// The end, and a place beyond it; kinds 0, 11 and 255; each kind's body cut by one byte.
fn refusals(to: &mut impl Write) -> io::Result<()> {
    word(to, b"steps\n")?;
    print_step(to, b"", 0)?;
    print_step(to, b"", 1)?;
    print_step(to, b"\x02", 0)?;
    print_step(to, b"\x02", 1)?;
    print_step(to, b"\x02", 2)?;
    print_step(to, b"\x00", 0)?;
    print_step(to, b"\x0b", 0)?;
    print_step(to, b"\xff", 0)?;
    print_step(to, b"\x01............", 0)?;
    print_step(to, b"\x03.........", 0)?;
    print_step(to, b"\x04..........", 0)?;
    print_step(to, b"\x05............", 0)?;
    print_step(to, b"\x06............", 0)?;
    print_step(to, b"\x07........................", 0)?;
    print_step(to, b"\x08........", 0)?;
    print_step(to, b"\x09........", 0)?;
    print_step(to, b"\x0a................", 0)?;
    print_step(to, b"\x08\x01\x00\x00\x00\x02\x00\x00\x00\x03", 0)
}

fn print_strip(to: &mut impl Write, strip: &[u8]) -> io::Result<()> {
    let mut place: usize = 0;
    for _ in 0..20 {
        let Ok(Some((_, next))) = step_at(strip, place) else {
            break;
        };
        print_step(to, strip, place)?;
        place = next;
    }
    print_step(to, strip, place)
}

fn print_step(to: &mut impl Write, strip: &[u8], place: usize) -> io::Result<()> {
    match step_at(strip, place) {
        Ok(Some((entry, next))) => {
            print_entry(to, entry)?;
            word(to, b"next")?;
            number(to, next as u64)?;
        }
        Ok(None) => word(to, b"end")?,
        Err(refusal) => {
            word(to, b"refused")?;
            number(to, refusal.number() as u64)?;
        }
    }
    line(to)
}

fn print_entry(to: &mut impl Write, entry: Entry) -> io::Result<()> {
    let mut out = [0u8; LINE];
    let n = entry_line(&mut out, entry);
    word(to, &out[..n])
}
