// v3_lsa.rs: the entries of a version 3 LSA, by its function code (RFC 5340 A.4, RFC 7770 2.2, RFC 8362 2 and 4,
// RFC 9513 7). The bodies with prefixes are in the crates `v3_prefix_lsa` and `v3_external`.
#![tactic(auto, unfolding(format::specs::Strip::code, format::specs::Strip::direct, format::specs::Strip::encode, format::specs::Strip::container, format::specs::Body::whole, format::specs::V3::link, format::specs::V3::router_lsa3, format::specs::V3::network_lsa3, format::specs::V3::inter_area_router_lsa, format::specs::V3::tlv_lsa))]

ghost use Rattle.std.specs.Prelude.{◌≡◌, ◌+◌, ◌≤◌, ◌<◌, [], length};
ghost use Rattle.std.proofs.Common.{rules};
ghost use Rattle.format.specs.Strip.{direct, encode};
ghost use Rattle.format.specs.V3.{tlvs, tlv_lsa, link, router_lsa3, network_lsa3, inter_area_router_lsa, e_router_lsa, e_network_lsa, e_link_lsa, e_intra_area_prefix_lsa, body3, body_of3, function_code, lsa_entries3, raw_id3, unparsed_id3};
ghost use Rattle.format.specs.Header.{header_entries3};
ghost use Rattle.lsa.proofs.Bounds.{bound3};
ghost use Rattle.lsa.proofs.Parts.{parts3};
ghost use Rattle.format.proofs.Direct.{one_link3};
ghost use Rattle.body.specs.Answers.{bytes_of, Pushed};
ghost use Rattle.body.specs.declared.Body.TheVariants.{Decoded};
ghost use Rattle.strip_put.specs.Writer.{HasRoom, Writes};

use body::list::{Item, push_array};
use body::{Body, Measured, push_attached_routers, push_router_flags};
use header::v3::{measure_lsa_header_fields, push_lsa_header_fields};
use header::{LsaHeader, LsaPart};
use lsa::Version;
use measure::measure_body;
use strip_ids::kind::{CONTAINER_LENGTH, IPV4_LENGTH, U8_LENGTH, U16_LENGTH, U32_LENGTH};
use strip_ids::{LINK, v3};
use strip_push::field::{Ipv4, U8, U16, U32};
use strip_push::{begin_container, end_container, push_at, push_bytes_at, push_metric24_at};
use strip_put::{Part, Writer};
use util::read_be_u16;
use v3_external::push_external_lsa;
use v3_prefix_lsa::{
    push_inter_area_prefix_lsa, push_intra_area_prefix_lsa, push_link_lsa, push_options,
    push_references,
};

pub mod measure;

// A whole LSA: its header, its body, and what is left of it. Answers how many entries that is, those inside containers left out.
#[tactic(auto, unfolding(format::specs::V3::lsa_entries3, lsa::specs::Whole::whole))]
pub fn push_lsa(strip: &mut Writer, lsa: LsaPart) -> u32
    requires { HasRoom strip.old (length (encode (lsa_entries3 lsa.part.bytes.now lsa.part.offset))) }
    ensures wrote { Writes strip.old (encode (lsa_entries3 lsa.entry.part.bytes.now lsa.entry.part.offset)) strip.new }
    ensures entries_value { result ≡ direct 0 (lsa_entries3 lsa.entry.part.bytes.now lsa.entry.part.offset) }
{
    lsa::push_lsa::<Ospfv3>(strip, lsa)
}

struct Ospfv3;

#[tactic(auto, unfolding(format::specs::V3::lsa_entries3, lsa::specs::Whole::whole))]
impl Version for Ospfv3 {
    const BODY: u8 = v3::BODY;

    ghost BODY = { raw_id3 };

    const UNPARSED: u8 = v3::UNPARSED;

    ghost UNPARSED = { unparsed_id3 };

    ghost header = { header_entries3 };

    ghost body = { body_of3 };

    fn push_header(strip: &mut Writer, lsa: LsaPart) -> u8 {
        push_lsa_header_fields(strip, lsa)
    }

    fn push_body(strip: &mut Writer, lsa: LsaPart) -> Body {
        push_body(strip, function_code(lsa), lsa.part.rest(LsaHeader::SIZE))
    }

    fn measure_header(_lsa: LsaPart) -> usize {
        measure_lsa_header_fields()
    }

    fn measure_body(lsa: LsaPart) -> Measured {
        measure_body(function_code(lsa), lsa.part.rest(LsaHeader::SIZE))
    }

    ghost bound = { bound3 };

    ghost parts = { parts3 };
}

// The function code: the LS type without its U bit and its scope (RFC 5340 A.4.2.1).
fn function_code(lsa: LsaPart) -> u16
    ensures { result ≡ function_code lsa.entry.part.bytes.now }
{
    read_be_u16(lsa.part.bytes, LsaHeader::V3_TYPE_AT) & 0x1FFF
}

// The body of a function code. RFC 5340 has codes 1 to 9.
#[tactic(auto, unfolding(format::specs::V3::tlv_lsa, format::specs::V3::body3))]
fn push_body(strip: &mut Writer, function: u16, body: Part) -> Body
    requires { HasRoom strip.old (length (bytes_of (body3 function body.bytes.now body.offset))) }
    ensures { Pushed (body3 function body.entry.bytes.now body.entry.offset) strip.old strip.new result }
{
    match function {
        1 => push_router_lsa(strip, body),
        2 => push_network_lsa(strip, body),
        3 => push_inter_area_prefix_lsa(strip, body),
        4 => push_inter_area_router_lsa(strip, body),
        5 | 7 => push_external_lsa(strip, body),
        8 => push_link_lsa(strip, body),
        9 => push_intra_area_prefix_lsa(strip, body),
        12 | 35 | 36 | 37 | 39 | 42 => push_tlv_lsa(strip, body),
        33 => push_e_router_lsa(strip, body),
        34 => push_e_network_lsa(strip, body),
        40 => push_e_link_lsa(strip, body),
        41 => push_e_intra_area_prefix_lsa(strip, body),
        _ => Body::Raw,
    }
}

// TLVs from p to the end of a body, which has so many fields before them, and ends with them. They are not opened.
fn push_tlv_body(strip: &mut Writer, body: Part, p: usize, fields: u8) -> Body
    requires room { HasRoom strip.old (length (encode (tlvs body.bytes.now body.offset p))) }
    requires p_in_bounds { p ≤ length body.bytes.now }
    requires fields_bound { fields < 255 }
    ensures answer { result ≡ Decoded (fields + 1) (length body.entry.bytes.now) }
    ensures wrote { Writes strip.old (encode (tlvs body.entry.bytes.now body.entry.offset p)) strip.new }
{
    let end = body.len();
    push_bytes_at(strip, v3::TLVS, body, p, end - p);
    Body::Decoded {
        entries: fields + 1,
        consumed: end,
    }
}

// A body of TLVs alone.
fn push_tlv_lsa(strip: &mut Writer, body: Part) -> Body
    requires { HasRoom strip.old (length (bytes_of (tlv_lsa 0 [] body.bytes.now body.offset))) }
    ensures { Pushed (tlv_lsa 0 [] body.entry.bytes.now body.entry.offset) strip.old strip.new result }
{
    push_tlv_body(strip, body, 0, 0)
}

// E-Router-LSA: flags, Options, TLVs (RFC 8362 4.1).
fn push_e_router_lsa(strip: &mut Writer, body: Part) -> Body
    requires { HasRoom strip.old (length (bytes_of (e_router_lsa body.bytes.now body.offset))) }
    ensures { Pushed (e_router_lsa body.entry.bytes.now body.entry.offset) strip.old strip.new result }
{
    if body.len() < 4 {
        return Body::Raw;
    }
    push_router_flags(strip, v3::FLAGS, body);
    push_options(strip, body);
    push_tlv_body(strip, body, 4, 6)
}

// E-Network-LSA: 0, Options, TLVs (RFC 8362 4.2).
fn push_e_network_lsa(strip: &mut Writer, body: Part) -> Body
    requires { HasRoom strip.old (length (bytes_of (e_network_lsa body.bytes.now body.offset))) }
    ensures { Pushed (e_network_lsa body.entry.bytes.now body.entry.offset) strip.old strip.new result }
{
    if body.len() < 4 {
        return Body::Raw;
    }
    push_options(strip, body);
    push_tlv_body(strip, body, 4, 1)
}

// E-Link-LSA: Rtr Priority, Options, TLVs (RFC 8362 4.7).
fn push_e_link_lsa(strip: &mut Writer, body: Part) -> Body
    requires { HasRoom strip.old (length (bytes_of (e_link_lsa body.bytes.now body.offset))) }
    ensures { Pushed (e_link_lsa body.entry.bytes.now body.entry.offset) strip.old strip.new result }
{
    if body.len() < 4 {
        return Body::Raw;
    }
    push_at::<U8>(strip, v3::ROUTER_PRIORITY, body, 0);
    push_options(strip, body);
    push_tlv_body(strip, body, 4, 2)
}

// E-Intra-Area-Prefix-LSA: 0, references, TLVs (RFC 8362 4.8).
fn push_e_intra_area_prefix_lsa(strip: &mut Writer, body: Part) -> Body
    requires { HasRoom strip.old (length (bytes_of (e_intra_area_prefix_lsa body.bytes.now body.offset))) }
    ensures { Pushed (e_intra_area_prefix_lsa body.entry.bytes.now body.entry.offset) strip.old strip.new result }
{
    if body.len() < 12 {
        return Body::Raw;
    }
    push_references(strip, body);
    push_tlv_body(strip, body, 12, 3)
}

// A link of a router (RFC 5340 A.4.3).
struct Link;

impl Item for Link {
    const SIZE: usize = 16;

    ghost SIZE = { 16 };

    ghost entries = { link };

    fn push(strip: &mut Writer, body: Part, p: usize) {
        begin_container(strip, LINK, body.range(p, Link::SIZE), 5);
        push_at::<U8>(strip, v3::LINK_TYPE, body, p);
        push_at::<U16>(strip, v3::LINK_METRIC, body, p + 2);
        push_at::<U32>(strip, v3::INTERFACE_ID, body, p + 4);
        push_at::<U32>(strip, v3::NEIGHBOR_INTERFACE_ID, body, p + 8);
        push_at::<Ipv4>(strip, v3::NEIGHBOR_ROUTER_ID, body, p + 12);
        end_container(strip);
    }

    fn measure(_body: Part, _p: usize) -> usize {
        CONTAINER_LENGTH + U8_LENGTH + U16_LENGTH + 2 * U32_LENGTH + IPV4_LENGTH
    }

    ghost size_nonzero = { Prim.search rules };

    ghost one = { one_link3 };
}

// Router-LSA: flags, Options, and as many links as the body holds from 4 on (RFC 5340 A.4.3).
fn push_router_lsa(strip: &mut Writer, body: Part) -> Body
    requires { HasRoom strip.old (length (bytes_of (router_lsa3 body.bytes.now body.offset))) }
    ensures { Pushed (router_lsa3 body.entry.bytes.now body.entry.offset) strip.old strip.new result }
{
    if body.len() < 4 {
        return Body::Raw;
    }
    push_router_flags(strip, v3::FLAGS, body);
    push_options(strip, body);
    let count = (body.len() - 4) / Link::SIZE;
    let consumed = push_array::<Link>(strip, v3::LINKS, body, 4, count);
    Body::Decoded {
        entries: 7,
        consumed,
    }
}

// Network-LSA: 0, Options, Attached Routers (RFC 5340 A.4.4).
fn push_network_lsa(strip: &mut Writer, body: Part) -> Body
    requires { HasRoom strip.old (length (bytes_of (network_lsa3 body.bytes.now body.offset))) }
    ensures { Pushed (network_lsa3 body.entry.bytes.now body.entry.offset) strip.old strip.new result }
{
    if body.len() < 4 {
        return Body::Raw;
    }
    push_options(strip, body);
    let consumed = push_attached_routers(strip, v3::ATTACHED_ROUTERS, body);
    Body::Decoded {
        entries: 2,
        consumed,
    }
}

// Inter-Area-Router-LSA: 0, Options, 0, Metric, Destination Router ID (RFC 5340 A.4.6).
fn push_inter_area_router_lsa(strip: &mut Writer, body: Part) -> Body
    requires { HasRoom strip.old (length (bytes_of (inter_area_router_lsa body.bytes.now body.offset))) }
    ensures { Pushed (inter_area_router_lsa body.entry.bytes.now body.entry.offset) strip.old strip.new result }
{
    if body.len() < 12 {
        return Body::Raw;
    }
    push_options(strip, body);
    push_metric24_at(strip, v3::METRIC, body, 5);
    push_at::<Ipv4>(strip, v3::DESTINATION_ROUTER_ID, body, 8);
    Body::Decoded {
        entries: 3,
        consumed: 12,
    }
}
