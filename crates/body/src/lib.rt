// What the LSA bodies of both versions share: the answers of a body's functions, the flags of a router, the array of
// attached routers, and the bytes that are left of a body. Lists are in `list`.
#![tactic(auto, unfolding(format::specs::Strip::code, format::specs::Strip::direct, format::specs::Strip::encode, format::specs::Body::leftover, format::specs::Body::attached_router, format::specs::Body::whole))]

ghost use Rattle.std.specs.Prelude.{◌≡◌, ℕ, ◌-◌, ◌≤◌, ◌<◌, List, length};
ghost use Rattle.std.proofs.Common.{rules};
ghost use Rattle.format.specs.Strip.{Entry, direct, encode};
ghost use Rattle.format.specs.Cut.{after};
ghost use Rattle.format.specs.Body.{leftover, listing, whole, router_flags, attached_router};
ghost use Rattle.format.proofs.Direct.{one_attached_router};
ghost use Rattle.body.specs.Answers.{measured_of};
ghost use Rattle.body.specs.List.{followed};
ghost use Rattle.strip_put.specs.Writer.{HasRoom, Writes};

use list::{Item, measure_whole, push_array};
use strip_ids::ATTACHED_ROUTER;
use strip_ids::kind::{BYTES_LENGTH, IPV4_LENGTH, U8_LENGTH};
use strip_push::field::{Ipv4, U8};
use strip_push::{push_at, push_bit_at, push_bytes_at};
use strip_put::{Part, Writer};

pub mod list;

// What became of a body that is pushed: the number of its direct entries, fewer than 256, and of the bytes consumed; or that it is
// raw.
#[derive(Clone, Copy, PartialEq, Eq, Debug)]
pub enum Body {
    Decoded { entries: u8, consumed: usize },
    Raw,
}

// The same of a body that is measured, with the length of its entries in a strip.
#[derive(Clone, Copy, PartialEq, Eq, Debug)]
pub enum Measured {
    Decoded { length: usize, consumed: usize },
    Raw,
}

// A whole LSA, measured: the length of its entries in a strip, and how many of its bytes stay unparsed.
#[derive(Clone, Copy, PartialEq, Eq, Debug)]
pub struct Lsa {
    pub length: usize,
    pub tail: usize,
}

// The number of bytes of a body from p on.
pub fn bytes_from(body: &[u8], p: usize) -> usize
    ensures { result ≡ length body.now - p }
{
    body.len().saturating_sub(p)
}

// The length of what `push_unparsed` writes, under any id and wherever the body lies.
pub fn measure_unparsed(body: &[u8], p: usize) -> usize
    ensures by_index { (i o : ℕ) → result ≡ length (encode (leftover i body.now o p)) }
    ensures upper_bound { result ≤ 10 }
{
    if p < body.len() { BYTES_LENGTH } else { 0 }
}

// The bytes from p to the end of a body, if there are any. Answers the number of entries, which is 1 or 0.
pub fn push_unparsed(strip: &mut Writer, id: u8, body: Part, p: usize) -> u8
    requires { HasRoom strip.old (length (encode (leftover id body.bytes.now body.offset p))) }
    ensures wrote { Writes strip.old (encode (leftover id body.entry.bytes.now body.entry.offset p)) strip.new }
    ensures entries_value { result ≡ direct 0 (leftover id body.entry.bytes.now body.entry.offset p) }
{
    let n = body.len();
    if n <= p {
        return 0;
    }
    push_bytes_at(strip, id, body, p, n - p);
    1
}

// What `push_router_flags` writes.
pub const ROUTER_FLAGS_LENGTH: usize = 5 * U8_LENGTH;

// The flags of a router and its bits Nt, V, E and B, whose ids follow one another from id on (RFC 2328 A.4.2, RFC 3101,
// RFC 5340 A.4.3).
pub fn push_router_flags(strip: &mut Writer, id: u8, body: Part)
    requires room { HasRoom strip.old (length (encode (router_flags id body.bytes.now body.offset))) }
    requires id_bound { id ≤ 251 }
    requires in_bounds { 1 ≤ length body.bytes.now }
    ensures { Writes strip.old (encode (router_flags id body.entry.bytes.now body.entry.offset)) strip.new }
{
    push_at::<U8>(strip, id, body, 0);
    push_bit_at(strip, id + 1, body, 0, 0x10);
    push_bit_at(strip, id + 2, body, 0, 0x04);
    push_bit_at(strip, id + 3, body, 0, 0x02);
    push_bit_at(strip, id + 4, body, 0, 0x01);
}

// The routers of a Network-LSA (RFC 2328 A.4.3, RFC 5340 A.4.4).
struct AttachedRouter;

impl Item for AttachedRouter {
    const SIZE: usize = 4;

    ghost SIZE = { 4 };

    ghost entries = { attached_router };

    fn push(strip: &mut Writer, body: Part, p: usize) {
        push_at::<Ipv4>(strip, ATTACHED_ROUTER, body, p);
    }

    fn measure(_body: Part, _p: usize) -> usize {
        IPV4_LENGTH
    }

    ghost size_nonzero = { Prim.search rules };

    ghost one = { one_attached_router };
}

// Their array holds as many as the body from 4 on. Answers the place where it ends.
pub fn push_attached_routers(strip: &mut Writer, id: u8, body: Part) -> usize
    requires room { HasRoom strip.old (length (encode (listing id (attached_router body.bytes.now body.offset) body.offset 4 (whole 4 body.bytes.now 4)))) }
    requires in_bounds { 4 ≤ length body.bytes.now }
    ensures wrote { Writes strip.old (encode (listing id (attached_router body.entry.bytes.now body.entry.offset) body.entry.offset 4 (whole 4 body.entry.bytes.now 4))) strip.new }
    ensures end_value { result ≡ after 4 (whole 4 body.entry.bytes.now 4) }
{
    push_array::<AttachedRouter>(strip, id, body, 4, (body.len() - 4) / 4)
}

// A Network-LSA that is measured: a part of 4 bytes whose entries take so much in a strip, and the array of its routers.
pub fn measure_network_lsa(body: Part, fixed: usize) -> Measured
    requires { fixed < 65536 }
    ensures { (id o : ℕ) (es : List Entry) → length (encode es) ≡ fixed → result ≡ measured_of (followed 4 es id 4 (attached_router body.entry.bytes.now o) body.entry.bytes.now o) }
{
    measure_whole::<AttachedRouter>(body, 4, fixed)
}
