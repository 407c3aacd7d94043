// The LSAs of version 3 with prefixes: the Inter-Area-Prefix-LSA, which has one, and the Link-LSA and Intra-Area-Prefix-LSA,
// which have a list (RFC 5340 A.4.5, A.4.9, A.4.10). The fields that these share with other LSAs are here too: Options
// (A.2) and the references.
#![tactic(auto, unfolding(format::specs::Strip::code, format::specs::Strip::encode, format::specs::V3::inter_area_prefix_lsa, format::specs::V3::link_lsa, format::specs::V3::intra_area_prefix_lsa))]

ghost use Rattle.std.specs.Prelude.{◌≤◌, length};
ghost use Rattle.format.specs.Strip.{encode, code};
ghost use Rattle.format.specs.V3.{options, references, inter_area_prefix_lsa, link_lsa, intra_area_prefix_lsa};
ghost use Rattle.body.specs.Answers.{bytes_of, Pushed};
ghost use Rattle.strip_put.specs.Writer.{HasRoom, Writes};

use body::Body;
use strip_ids::v3;
use strip_push::field::{Ipv4, U8, U16, U24, U32, Wide16};
use strip_push::{push_at, push_ipv6_at, push_metric24_at};
use strip_put::{Part, Writer};
use util::{read_be_u16, read_be_u32};
use v3_prefix::{fixed_prefix_fits, push_prefixes};

pub mod measure;

// The options, of 24 bits (RFC 5340 A.2).
pub fn push_options(strip: &mut Writer, body: Part)
    requires room { HasRoom strip.old (length (code (options body.bytes.now body.offset))) }
    requires in_bounds { 4 ≤ length body.bytes.now }
    ensures { Writes strip.old (code (options body.entry.bytes.now body.entry.offset)) strip.new }
{
    push_at::<U24>(strip, v3::OPTIONS, body, 1);
}

// Referenced LS Type, Referenced Link State ID, Referenced Advertising Router (RFC 5340 A.4.10).
pub fn push_references(strip: &mut Writer, body: Part)
    requires room { HasRoom strip.old (length (encode (references body.bytes.now body.offset))) }
    requires in_bounds { 12 ≤ length body.bytes.now }
    ensures { Writes strip.old (encode (references body.entry.bytes.now body.entry.offset)) strip.new }
{
    push_at::<U16>(strip, v3::REFERENCED_LS_TYPE, body, 2);
    push_at::<U32>(strip, v3::REFERENCED_LINK_STATE_ID, body, 4);
    push_at::<Ipv4>(strip, v3::REFERENCED_ADVERTISING_ROUTER, body, 8);
}

// Inter-Area-Prefix-LSA: 0, Metric, PrefixLength, PrefixOptions, 0, Address Prefix (RFC 5340 A.4.5).
pub fn push_inter_area_prefix_lsa(strip: &mut Writer, body: Part) -> Body
    requires { HasRoom strip.old (length (bytes_of (inter_area_prefix_lsa body.bytes.now body.offset))) }
    ensures { Pushed (inter_area_prefix_lsa body.entry.bytes.now body.entry.offset) strip.old strip.new result }
{
    let Some(n) = fixed_prefix_fits(body.bytes) else {
        return Body::Raw;
    };
    push_metric24_at(strip, v3::METRIC, body, 1);
    push_at::<U8>(strip, v3::PREFIX_LENGTH, body, 4);
    push_at::<U8>(strip, v3::PREFIX_OPTIONS, body, 5);
    push_ipv6_at(strip, v3::PREFIX, body, 8, n);
    Body::Decoded {
        entries: 4,
        consumed: 8 + n,
    }
}

// Link-LSA: Rtr Priority, Options, Link-local Interface Address, # prefixes, prefixes (RFC 5340 A.4.9).
pub fn push_link_lsa(strip: &mut Writer, body: Part) -> Body
    requires { HasRoom strip.old (length (bytes_of (link_lsa body.bytes.now body.offset))) }
    ensures { Pushed (link_lsa body.entry.bytes.now body.entry.offset) strip.old strip.new result }
{
    if body.len() < 24 {
        return Body::Raw;
    }
    push_at::<U8>(strip, v3::ROUTER_PRIORITY, body, 0);
    push_options(strip, body);
    push_ipv6_at(strip, v3::LINK_LOCAL_ADDRESS, body, 4, 16);
    push_at::<U32>(strip, v3::NUM_PREFIXES, body, 20);
    let count = read_be_u32(body.bytes, 20);
    let consumed = push_prefixes::<false>(strip, body, 24, count);
    Body::Decoded {
        entries: 5,
        consumed,
    }
}

// Intra-Area-Prefix-LSA: # Prefixes, references, prefixes with a metric (RFC 5340 A.4.10).
pub fn push_intra_area_prefix_lsa(strip: &mut Writer, body: Part) -> Body
    requires { HasRoom strip.old (length (bytes_of (intra_area_prefix_lsa body.bytes.now body.offset))) }
    ensures { Pushed (intra_area_prefix_lsa body.entry.bytes.now body.entry.offset) strip.old strip.new result }
{
    if body.len() < 12 {
        return Body::Raw;
    }
    push_at::<Wide16>(strip, v3::NUM_PREFIXES, body, 0);
    push_references(strip, body);
    let count = u32::from(read_be_u16(body.bytes, 0));
    let consumed = push_prefixes::<true>(strip, body, 12, count);
    Body::Decoded {
        entries: 5,
        consumed,
    }
}
