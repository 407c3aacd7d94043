// The lengths of what `push_lsa` and the functions below it write, wherever the LSA lies.
ghost use Rattle.std.specs.Prelude.{◌≡◌, ℕ, ◌*◌, ◌≤◌, length};
ghost use Rattle.format.specs.Strip.{encode};
ghost use Rattle.format.specs.V2.{body2, lsa_entries2, lsa_tail2, opaque_lsa};
ghost use Rattle.body.specs.Answers.{measured_of};

use crate::{Ospfv2, opaque_has_tlvs};
use body::{Lsa, Measured, measure_network_lsa};
use header::LsaPart;
use strip_ids::kind::{BYTES_LENGTH, IPV4_LENGTH};
use strip_put::Part;
use v2_router::measure::measure_router_lsa;
use v2_routes::measure::{measure_external_lsa, measure_summary_lsa};

// A whole LSA, and how many of its bytes stay unparsed.
#[tactic(auto, unfolding(format::specs::V2::lsa_entries2, format::specs::V2::lsa_tail2, lsa::specs::Whole::whole, lsa::specs::Whole::tail))]
pub fn measure_lsa(lsa: LsaPart) -> Lsa
    ensures by_index { (o : ℕ) → result.length ≡ length (encode (lsa_entries2 lsa.entry.part.bytes.now o)) }
    ensures tail_value { result.tail ≡ lsa_tail2 lsa.entry.part.bytes.now }
    ensures upper_bound { result.length ≤ 19 * length lsa.entry.part.bytes.now }
{
    lsa::measure_lsa::<Ospfv2>(lsa)
}

pub(crate) fn measure_body(ls_type: u8, opaque_type: u8, body: Part) -> Measured
    ensures { (o : ℕ) → result ≡ measured_of (body2 ls_type opaque_type body.entry.bytes.now o) }
{
    match ls_type {
        1 => measure_router_lsa(body),
        2 => measure_network_lsa(body, IPV4_LENGTH),
        3 | 4 => measure_summary_lsa(body),
        5 | 7 => measure_external_lsa(body),
        9..=11 => measure_opaque_lsa(opaque_type, body),
        _ => Measured::Raw,
    }
}

fn measure_opaque_lsa(opaque_type: u8, body: Part) -> Measured
    ensures { (o : ℕ) → result ≡ measured_of (opaque_lsa opaque_type body.entry.bytes.now o) }
{
    if !opaque_has_tlvs(opaque_type) {
        return Measured::Raw;
    }
    Measured::Decoded {
        length: BYTES_LENGTH,
        consumed: body.len(),
    }
}
