// LSAs of version 2 into a strip: RFC 2328 A.4. The bodies of Network-LSAs (A.4.3) and of opaque LSAs (RFC 5250) are here,
// those of the other types in `v2_router` and `v2_routes`. A body is pushed up to the place that its layout covers; the
// bytes after it, or the whole of a raw body, are one entry.
#![tactic(auto, unfolding(format::specs::Strip::code, format::specs::Strip::direct, format::specs::Strip::encode, format::specs::V2::network_lsa2, format::specs::V2::opaque_lsa, format::specs::V2::body2))]

ghost use Rattle.std.specs.Prelude.{◌≡◌, get_or, length};
ghost use Rattle.format.specs.Strip.{direct, encode};
ghost use Rattle.format.specs.Header.{header_entries2};
ghost use Rattle.format.specs.V2.{body2, body_of2, lsa_entries2, network_lsa2, opaque_has_tlvs, opaque_lsa, raw_id2, unparsed_id2};
ghost use Rattle.lsa.proofs.Bounds.{bound2};
ghost use Rattle.lsa.proofs.Parts.{parts2};
ghost use Rattle.body.specs.Answers.{Pushed, bytes_of};
ghost use Rattle.strip_put.specs.Writer.{HasRoom, Writes};

use body::{Body, Measured, push_attached_routers};
use header::v2::{measure_lsa_header_fields, push_lsa_header_fields};
use header::{LsaHeader, LsaPart};
use lsa::Version;
use measure::measure_body;
use strip_ids::v2;
use strip_push::field::Ipv4;
use strip_push::{push_at, push_bytes_at};
use strip_put::{Part, Writer};
use v2_router::push_router_lsa;
use v2_routes::{push_external_lsa, push_summary_lsa};

pub mod measure;

// A whole LSA: its header, its body, and what is left of that. Answers how many entries that is, those inside containers left out.
#[tactic(auto, unfolding(format::specs::V2::lsa_entries2, lsa::specs::Whole::whole))]
pub fn push_lsa(strip: &mut Writer, lsa: LsaPart) -> u32
    requires { HasRoom strip.old (length (encode (lsa_entries2 lsa.part.bytes.now lsa.part.offset))) }
    ensures wrote { Writes strip.old (encode (lsa_entries2 lsa.entry.part.bytes.now lsa.entry.part.offset)) strip.new }
    ensures entries_value { result ≡ direct 0 (lsa_entries2 lsa.entry.part.bytes.now lsa.entry.part.offset) }
{
    lsa::push_lsa::<Ospfv2>(strip, lsa)
}

struct Ospfv2;

#[tactic(auto, unfolding(format::specs::V2::lsa_entries2, lsa::specs::Whole::whole))]
impl Version for Ospfv2 {
    const BODY: u8 = v2::BODY;

    ghost BODY = { raw_id2 };

    const UNPARSED: u8 = v2::UNPARSED;

    ghost UNPARSED = { unparsed_id2 };

    ghost header = { header_entries2 };

    ghost body = { body_of2 };

    fn push_header(strip: &mut Writer, lsa: LsaPart) -> u8 {
        push_lsa_header_fields(strip, lsa)
    }

    fn push_body(strip: &mut Writer, lsa: LsaPart) -> Body {
        let (ls_type, opaque_type) = lsa_types(lsa);
        push_body(strip, ls_type, opaque_type, lsa.part.rest(LsaHeader::SIZE))
    }

    fn measure_header(lsa: LsaPart) -> usize {
        measure_lsa_header_fields(lsa.part.bytes)
    }

    fn measure_body(lsa: LsaPart) -> Measured {
        let (ls_type, opaque_type) = lsa_types(lsa);
        measure_body(ls_type, opaque_type, lsa.part.rest(LsaHeader::SIZE))
    }

    ghost bound = { bound2 };

    ghost parts = { parts2 };
}

// The LS type, and the opaque type, which an opaque LSA has.
fn lsa_types(lsa: LsaPart) -> (u8, u8)
    ensures { (result.0 ≡ get_or lsa.entry.part.bytes.now 3 0) × (result.1 ≡ get_or lsa.entry.part.bytes.now 4 0) }
{
    let bytes = lsa.part.bytes;
    (
        bytes[LsaHeader::V2_TYPE_AT],
        bytes[LsaHeader::V2_OPAQUE_TYPE_AT],
    )
}

// The body of an LS type; the opaque type matters to opaque LSAs alone.
fn push_body(strip: &mut Writer, ls_type: u8, opaque_type: u8, body: Part) -> Body
    requires { HasRoom strip.old (length (bytes_of (body2 ls_type opaque_type body.bytes.now body.offset))) }
    ensures { Pushed (body2 ls_type opaque_type body.entry.bytes.now body.entry.offset) strip.old strip.new result }
{
    match ls_type {
        1 => push_router_lsa(strip, body),
        2 => push_network_lsa(strip, body),
        3 | 4 => push_summary_lsa(strip, body),
        5 | 7 => push_external_lsa(strip, body),
        9..=11 => push_opaque_lsa(strip, opaque_type, body),
        _ => Body::Raw,
    }
}

// RFC 2328 A.4.3: Network Mask, Attached Routers.
fn push_network_lsa(strip: &mut Writer, body: Part) -> Body
    requires { HasRoom strip.old (length (bytes_of (network_lsa2 body.bytes.now body.offset))) }
    ensures { Pushed (network_lsa2 body.entry.bytes.now body.entry.offset) strip.old strip.new result }
{
    if body.len() < 4 {
        return Body::Raw;
    }
    push_at::<Ipv4>(strip, v2::NETWORK_MASK, body, 0);
    Body::Decoded {
        entries: 2,
        consumed: push_attached_routers(strip, v2::ATTACHED_ROUTERS, body),
    }
}

// Whether the body of an opaque type has TLVs (RFC 3630, RFC 7770, RFC 7684).
fn opaque_has_tlvs(opaque_type: u8) -> bool
    ensures { result ≡ opaque_has_tlvs opaque_type }
{
    matches!(opaque_type, 1 | 4 | 7 | 8)
}

// RFC 5250 3, types 9 to 11: TLVs, by their range alone.
fn push_opaque_lsa(strip: &mut Writer, opaque_type: u8, body: Part) -> Body
    requires { HasRoom strip.old (length (bytes_of (opaque_lsa opaque_type body.bytes.now body.offset))) }
    ensures { Pushed (opaque_lsa opaque_type body.entry.bytes.now body.entry.offset) strip.old strip.new result }
{
    if !opaque_has_tlvs(opaque_type) {
        return Body::Raw;
    }
    push_bytes_at(strip, v2::TLVS, body, 0, body.len());
    Body::Decoded {
        entries: 1,
        consumed: body.len(),
    }
}
