// The step of the strip reader, on a strip and a place: the entry that stands there and the next place, nothing at the end, or
// a refusal.
#![tactic(auto)]

ghost use Rattle.std.specs.Prelude.{◌≡◌, ◌+◌, ◌≤◌, length, get_or};
ghost use Rattle.format.specs.Bytes.{be32_at};
ghost use Rattle.format.specs.Strip.{entry_at, step_at};
ghost use Rattle.strip_ids.specs.Kind.{number_of};
ghost use Rattle.strip_step.specs.Answers.{entry_meaning, field_of, length_of, step_meaning};

use refusal::Refusal;
use strip_ids::kind::{
    BYTES_BODY, CLOSE_BODY, IPV4_BODY, IPV6_BODY, Kind, OPEN_BODY, U8_BODY, U16_BODY, U32_BODY,
    U64_BODY, UNREACHABLE_BODY,
};
use util::{read_be_u16, read_be_u32, read_be_u64};

// Where a field lies: its id, and its range in the packet.
#[derive(Clone, Copy, PartialEq, Eq, Debug)]
pub struct Field {
    pub id: u8,
    pub start: u32,
    pub end: u32,
}

// An entry: its field, and the value, or of an opening the number of entries directly inside. An IPv4 address is the number of its
// bytes, an IPv6 address the numbers of its two halves.
#[derive(Clone, Copy, PartialEq, Eq, Debug)]
pub enum Entry {
    Open(Field, u32),
    Close,
    U8(Field, u8),
    U16(Field, u16),
    U32(Field, u32),
    Ipv4(Field, u32),
    Ipv6(Field, u64, u64),
    Bytes(Field),
    Unreachable(Field),
    U64(Field, u64),
}

#[tactic(auto, unfolding(format::specs::Strip::step_at))]
pub fn step_at(strip: &[u8], place: usize) -> Result<Option<(Entry, usize)>, Refusal>
    ensures { step_meaning result ≡ step_at strip.now place }
{
    if strip.len() < place {
        return Err(Refusal::PlaceBeyond);
    }
    if place == strip.len() {
        return Ok(None);
    }
    let kind = Kind::try_from(strip[place])?;
    let body = place + 1;
    let length = body_length(kind);
    if strip.len() - body < length {
        return Err(Refusal::EntryCut);
    }
    Ok(Some((entry_at(kind, strip, body), body + length)))
}

// How many bytes follow the kind's byte.
fn body_length(kind: Kind) -> usize
    ensures { result ≡ length_of kind }
{
    match kind {
        Kind::Open => OPEN_BODY,
        Kind::Close => CLOSE_BODY,
        Kind::U8 => U8_BODY,
        Kind::U16 => U16_BODY,
        Kind::U32 => U32_BODY,
        Kind::Ipv4 => IPV4_BODY,
        Kind::Ipv6 => IPV6_BODY,
        Kind::Bytes => BYTES_BODY,
        Kind::Unreachable => UNREACHABLE_BODY,
        Kind::U64 => U64_BODY,
    }
}

// The entry of a kind whose body begins at q, and is whole.
fn entry_at(kind: Kind, strip: &[u8], q: usize) -> Entry
    requires { q + length_of kind ≤ length strip.now }
    ensures { entry_meaning result ≡ entry_at (number_of kind) strip.now q }
{
    match kind {
        Kind::Open => Entry::Open(field_at(strip, q), read_be_u32(strip, q + 9)),
        Kind::Close => Entry::Close,
        Kind::U8 => Entry::U8(field_at(strip, q), strip[q + 9]),
        Kind::U16 => Entry::U16(field_at(strip, q), read_be_u16(strip, q + 9)),
        Kind::U32 => Entry::U32(field_at(strip, q), read_be_u32(strip, q + 9)),
        Kind::Ipv4 => Entry::Ipv4(field_at(strip, q), read_be_u32(strip, q + 9)),
        Kind::Ipv6 => {
            let high = read_be_u64(strip, q + 9);
            let low = read_be_u64(strip, q + 17);
            Entry::Ipv6(field_at(strip, q), high, low)
        }
        Kind::Bytes => Entry::Bytes(field_at(strip, q)),
        Kind::Unreachable => Entry::Unreachable(field_at(strip, q)),
        Kind::U64 => Entry::U64(field_at(strip, q), read_be_u64(strip, q + 9)),
    }
}

fn field_at(strip: &[u8], q: usize) -> Field
    requires { q + 9 ≤ length strip.now }
    ensures { result ≡ field_of (get_or strip.now q 0) (be32_at strip.now (q + 1)) (be32_at strip.now (q + 5)) }
{
    Field {
        id: strip[q],
        start: read_be_u32(strip, q + 1),
        end: read_be_u32(strip, q + 5),
    }
}
