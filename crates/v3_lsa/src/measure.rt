// The lengths of what this crate's functions write, wherever the LSA lies: `measure_x` for `push_x`.
ghost use Rattle.std.specs.Prelude.{◌≡◌, ℕ, ◌*◌, ◌≤◌, ◌<◌, List, length};
ghost use Rattle.format.specs.Strip.{Entry, encode};
ghost use Rattle.format.specs.V3.{inter_area_router_lsa, tlv_lsa, body3, lsa_entries3, lsa_tail3};
ghost use Rattle.body.specs.Answers.{measured_of};

use crate::{Link, Ospfv3};
use body::list::measure_whole;
use body::{Lsa, Measured, ROUTER_FLAGS_LENGTH, measure_network_lsa};
use header::LsaPart;
use strip_ids::kind::{BYTES_LENGTH, IPV4_LENGTH, U8_LENGTH};
use strip_push::measure::measure_metric24;
use strip_put::Part;
use v3_external::measure::measure_external_lsa;
use v3_prefix_lsa::measure::{
    OPTIONS_LENGTH, REFERENCES_LENGTH, measure_inter_area_prefix_lsa,
    measure_intra_area_prefix_lsa, measure_link_lsa,
};

// What a Router-LSA has before its links, and an E-Router-LSA before its TLVs.
const ROUTER_LENGTH: usize = ROUTER_FLAGS_LENGTH + OPTIONS_LENGTH;

// What an Inter-Area-Router-LSA has beside its metric, and an E-Link-LSA before its TLVs.
const INTER_AREA_ROUTER_LENGTH: usize = OPTIONS_LENGTH + IPV4_LENGTH;

const E_LINK_LENGTH: usize = U8_LENGTH + OPTIONS_LENGTH;

#[tactic(auto, unfolding(format::specs::V3::lsa_entries3, format::specs::V3::lsa_tail3, lsa::specs::Whole::whole, lsa::specs::Whole::tail))]
pub fn measure_lsa(lsa: LsaPart) -> Lsa
    ensures by_index { (o : ℕ) → result.length ≡ length (encode (lsa_entries3 lsa.entry.part.bytes.now o)) }
    ensures tail_value { result.tail ≡ lsa_tail3 lsa.entry.part.bytes.now }
    ensures upper_bound { result.length ≤ 19 * length lsa.entry.part.bytes.now }
{
    lsa::measure_lsa::<Ospfv3>(lsa)
}

#[tactic(auto, unfolding(format::specs::Strip::encode, format::specs::V3::body3))]
pub(crate) fn measure_body(function: u16, body: Part) -> Measured
    ensures { (o : ℕ) → result ≡ measured_of (body3 function body.entry.bytes.now o) }
{
    match function {
        1 => measure_whole::<Link>(body, 4, ROUTER_LENGTH),
        2 => measure_network_lsa(body, OPTIONS_LENGTH),
        3 => measure_inter_area_prefix_lsa(body),
        4 => measure_inter_area_router_lsa(body),
        5 | 7 => measure_external_lsa(body),
        8 => measure_link_lsa(body),
        9 => measure_intra_area_prefix_lsa(body),
        12 | 35 | 36 | 37 | 39 | 42 => measure_tlv_lsa(body, 0, 0),
        33 => measure_tlv_lsa(body, 4, ROUTER_LENGTH),
        34 => measure_tlv_lsa(body, 4, OPTIONS_LENGTH),
        40 => measure_tlv_lsa(body, 4, E_LINK_LENGTH),
        41 => measure_tlv_lsa(body, 12, REFERENCES_LENGTH),
        _ => Measured::Raw,
    }
}

// A body of TLVs after a part of n bytes whose entries take so much.
fn measure_tlv_lsa(body: Part, n: usize, fixed: usize) -> Measured
    requires { fixed < 65536 }
    ensures { (o : ℕ) (es : List Entry) → length (encode es) ≡ fixed → result ≡ measured_of (tlv_lsa n es body.entry.bytes.now o) }
{
    if body.len() < n {
        return Measured::Raw;
    }
    Measured::Decoded {
        length: fixed + BYTES_LENGTH,
        consumed: body.len(),
    }
}

fn measure_inter_area_router_lsa(body: Part) -> Measured
    ensures { (o : ℕ) → result ≡ measured_of (inter_area_router_lsa body.entry.bytes.now o) }
{
    if body.len() < 12 {
        return Measured::Raw;
    }
    Measured::Decoded {
        length: INTER_AREA_ROUTER_LENGTH + measure_metric24(body.bytes, 5),
        consumed: 12,
    }
}
