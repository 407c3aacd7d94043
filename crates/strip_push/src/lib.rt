// Entries into a strip. A field's range is the n bytes from p on of a part of the packet. `push_at` takes the field's value from
// there too; so a field's range and its value cannot part.
#![tactic(auto, unfolding(format::specs::Strip::code))]

ghost use Rattle.std.specs.Prelude.{◌≡◌, ◌+◌, ◌≤◌, ◌<◌, ◌∷◌, length};
ghost use Rattle.format.specs.Strip.{Entry, head, code, bit_at, low_bits_at, metric24_at, bytes_at};
ghost use Rattle.format.specs.Prefix.{ip6_at};
ghost use Rattle.strip_ids.specs.Kind.{number_of};
ghost use Rattle.strip_put.specs.Writer.{HasRoom, Writes};
ghost use Rattle.strip_push.specs.Finishes.{Finishes};
ghost use Rattle.strip_push.specs.Values.{entry_of};

use field::Field;
use std::ops::Range;
use strip_ids::kind::Kind;
use strip_put::{Part, Writer};
use tlv::prefix_to_ipv6;
use util::{read_be_u64, read_metric24};

pub mod field;
pub mod measure;

// What a field says. An IPv4 address is the number of its bytes, an IPv6 address the numbers of its two halves.
#[derive(Clone, Copy, PartialEq, Eq, Debug)]
pub enum FieldValue {
    U8(u8),
    U16(u16),
    U32(u32),
    U64(u64),
    Ipv4(u32),
    Ipv6(u64, u64),
    Bytes,
    Unreachable,
}

// An entry up to its value. Start and end are one number of 64 bits, which takes one store where two numbers take two.
#[inline(always)]
#[tactic(auto, using(strip_put::proofs::SwapLaws::stored_pair))]
fn push_head(strip: &mut Writer, kind: Kind, id: u8, range: Range<u64>)
    requires room { HasRoom strip.old 10 }
    requires small { (range.start < 4294967296) × (range.end < 4294967296) }
    ensures { Writes strip.old (number_of kind ∷ head id range.start range.end) strip.new }
{
    strip.put_u8(kind as u8);
    strip.put_u8(id);
    strip.put_u64(range.start * 4294967296 + range.end);
}

// The opening of a container, which says how many entries are directly inside.
#[inline(always)]
pub fn begin_container(strip: &mut Writer, id: u8, range: Range<u32>, entries: u32)
    requires { HasRoom strip.old 14 }
    ensures { Writes strip.old (code (Entry.opens id range.start range.end entries)) strip.new }
{
    let mut out = Writer::new(&mut *strip.buffer, strip.at);
    push_head(&mut out, Kind::Open, id, wide(range));
    out.put_u32(entries);
    strip.at = out.at;
}

pub fn end_container(strip: &mut Writer)
    requires { HasRoom strip.old 1 }
    ensures { Writes strip.old (code Entry.closes) strip.new }
{
    strip.put_u8(Kind::Close as u8);
}

// Ends a container whose opening was left out at `opening`, and writes that there: its end or the number of its entries was not
// known before.
#[inline(always)]
pub fn finish_container(strip: &mut Writer, opening: usize, id: u8, range: Range<u32>, entries: u32)
    requires opening_bound { opening + 14 ≤ strip.old.at }
    requires room { HasRoom strip.old 1 }
    ensures { Finishes strip.old opening id range.start range.end entries strip.new }
{
    let close = strip.at;
    strip.at = opening;
    begin_container(strip, id, range, entries);
    strip.at = close;
    end_container(strip);
}

#[inline(always)]
pub fn push_field(strip: &mut Writer, id: u8, range: Range<u32>, value: FieldValue)
    requires { HasRoom strip.old (length (code (entry_of value id range.start range.end))) }
    ensures { Writes strip.old (code (entry_of value id range.start range.end)) strip.new }
{
    push_wide(strip, id, wide(range), value);
}

fn wide(range: Range<u32>) -> Range<u64>
    ensures { (result.start ≡ range.start) × (result.end ≡ range.end) }
{
    u64::from(range.start)..u64::from(range.end)
}

// Inlined, so that the compiler sees which value it is; and by a writer of its own, since of one that was handed in the compiler
// reads buffer and place again after every byte.
#[inline(always)]
fn push_wide(strip: &mut Writer, id: u8, range: Range<u64>, value: FieldValue)
    requires room { HasRoom strip.old (length (code (entry_of value id range.start range.end))) }
    requires small { (range.start < 4294967296) × (range.end < 4294967296) }
    ensures { Writes strip.old (code (entry_of value id range.start range.end)) strip.new }
{
    let mut out = Writer::new(&mut *strip.buffer, strip.at);
    push_value(&mut out, id, range, value);
    strip.at = out.at;
}

#[inline(always)]
fn push_value(strip: &mut Writer, id: u8, range: Range<u64>, value: FieldValue)
    requires room { HasRoom strip.old (length (code (entry_of value id range.start range.end))) }
    requires small { (range.start < 4294967296) × (range.end < 4294967296) }
    ensures { Writes strip.old (code (entry_of value id range.start range.end)) strip.new }
{
    match value {
        FieldValue::U8(x) => {
            push_head(strip, Kind::U8, id, range);
            strip.put_u8(x);
        }
        FieldValue::U16(x) => {
            push_head(strip, Kind::U16, id, range);
            strip.put_u16(x);
        }
        FieldValue::U32(x) => {
            push_head(strip, Kind::U32, id, range);
            strip.put_u32(x);
        }
        FieldValue::U64(x) => {
            push_head(strip, Kind::U64, id, range);
            strip.put_u64(x);
        }
        FieldValue::Ipv4(address) => {
            push_head(strip, Kind::Ipv4, id, range);
            strip.put_u32(address);
        }
        FieldValue::Ipv6(high, low) => {
            push_head(strip, Kind::Ipv6, id, range);
            strip.put_u64(high);
            strip.put_u64(low);
        }
        FieldValue::Bytes => push_head(strip, Kind::Bytes, id, range),
        FieldValue::Unreachable => push_head(strip, Kind::Unreachable, id, range),
    }
}

// The field at p of a body.
#[inline(always)]
pub fn push_at<F: Field>(strip: &mut Writer, id: u8, body: Part, p: usize)
    requires room { HasRoom strip.old (length (code (F.entry id body.bytes.now body.offset p))) }
    requires in_bounds { p + F.SIZE ≤ length body.bytes.now }
    ensures { Writes strip.old (code (F.entry id body.entry.bytes.now body.entry.offset p)) strip.new }
{
    push_wide(
        strip,
        id,
        body.wide_range(p, F::SIZE),
        F::read(body.bytes, p),
    );
}

// The bit of a byte that has this weight.
#[inline(always)]
pub fn push_bit_at(strip: &mut Writer, id: u8, body: Part, p: usize, weight: u8)
    requires room { HasRoom strip.old 11 }
    requires in_bounds { p + 1 ≤ length body.bytes.now }
    requires weight_nonzero { 0 < weight }
    ensures { Writes strip.old (code (bit_at id body.entry.bytes.now body.entry.offset p weight)) strip.new }
{
    let bit = body.bytes[p] / weight % 2;
    push_wide(strip, id, body.wide_range(p, 1), FieldValue::U8(bit));
}

// The bits of a byte below this weight.
#[inline(always)]
pub fn push_low_bits_at(strip: &mut Writer, id: u8, body: Part, p: usize, weight: u8)
    requires room { HasRoom strip.old 11 }
    requires in_bounds { p + 1 ≤ length body.bytes.now }
    requires weight_nonzero { 0 < weight }
    ensures { Writes strip.old (code (low_bits_at id body.entry.bytes.now body.entry.offset p weight)) strip.new }
{
    let bits = body.bytes[p] % weight;
    push_wide(strip, id, body.wide_range(p, 1), FieldValue::U8(bits));
}

// A metric of 24 bits: its cost, or that it is unreachable.
#[inline(always)]
pub fn push_metric24_at(strip: &mut Writer, id: u8, body: Part, p: usize)
    requires room { HasRoom strip.old (length (code (metric24_at id body.bytes.now body.offset p))) }
    requires le_p { 1 ≤ p }
    requires in_bounds { p + 3 ≤ length body.bytes.now }
    ensures { Writes strip.old (code (metric24_at id body.entry.bytes.now body.entry.offset p)) strip.new }
{
    let value = match read_metric24(body.bytes, p) {
        Some(cost) => FieldValue::U32(cost),
        None => FieldValue::Unreachable,
    };
    push_wide(strip, id, body.wide_range(p, 3), value);
}

// The address of a prefix of n octets.
#[inline(always)]
pub fn push_ipv6_at(strip: &mut Writer, id: u8, body: Part, p: usize, n: usize)
    requires room { HasRoom strip.old 26 }
    requires in_bounds { p + n ≤ length body.bytes.now }
    requires n_bound { n ≤ 16 }
    ensures { Writes strip.old (code (ip6_at id body.entry.bytes.now body.entry.offset p n)) strip.new }
{
    let address = prefix_to_ipv6(&body.bytes[p..p + n]);
    let value = FieldValue::Ipv6(read_be_u64(&address, 0), read_be_u64(&address, 8));
    push_wide(strip, id, body.wide_range(p, n), value);
}

// The n bytes from p on, by their range alone.
#[inline(always)]
pub fn push_bytes_at(strip: &mut Writer, id: u8, body: Part, p: usize, n: usize)
    requires room { HasRoom strip.old 10 }
    requires in_bounds { p + n ≤ length body.bytes.now }
    ensures { Writes strip.old (code (bytes_at id body.entry.offset p n)) strip.new }
{
    push_wide(strip, id, body.wide_range(p, n), FieldValue::Bytes);
}
