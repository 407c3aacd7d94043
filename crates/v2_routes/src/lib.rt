// The LSAs of version 2 that describe a route to a destination outside the area, into a strip, with their TOS metrics:
// RFC 2328 A.4.4 for Summary-LSAs, A.4.5 for AS-external-LSAs, RFC 3101 for type 7.
#![tactic(auto, unfolding(format::specs::Strip::code, format::specs::Strip::direct, format::specs::Strip::encode, format::specs::Strip::container, format::specs::Body::whole, format::specs::V2::summary_tos, format::specs::V2::summary_lsa, format::specs::V2::external_tos, format::specs::V2::external_lsa2))]

ghost use Rattle.std.specs.Prelude.{◌≡◌, ◌+◌, ◌≤◌, ◌<◌, cond, length, ltb};
ghost use Rattle.std.proofs.Common.{rules};
ghost use Rattle.format.specs.Cut.{after};
ghost use Rattle.format.specs.Body.{listing_if_any, whole};
ghost use Rattle.format.specs.Strip.{encode};
ghost use Rattle.format.specs.V2.{external_fields, external_lsa2, external_tos, summary_lsa, summary_tos};
ghost use Rattle.format.proofs.Direct.{one_summary_tos, one_external_tos};
ghost use Rattle.body.specs.Answers.{Pushed, bytes_of};
ghost use Rattle.body.specs.declared.Body.TheVariants.{Decoded};
ghost use Rattle.strip_put.specs.Writer.{HasRoom, Writes};

use body::Body;
use body::list::{Item, push_array_if_any};
use strip_ids::kind::{CONTAINER_LENGTH, IPV4_LENGTH, U8_LENGTH, U32_LENGTH};
use strip_ids::{TOS_METRIC_OR_PREFIX, v2};
use strip_push::field::{Ipv4, U8, U32};
use strip_push::measure::measure_metric24;
use strip_push::{
    begin_container, end_container, push_at, push_bit_at, push_low_bits_at, push_metric24_at,
};
use strip_put::{Part, Writer};

pub mod measure;

// Where the metric of either stands. The byte before it is no part of it.
const METRIC_AT: usize = 5;

// RFC 2328 A.4.4, types 3 and 4: Network Mask, 0, metric, TOS metrics.
pub fn push_summary_lsa(strip: &mut Writer, body: Part) -> Body
    requires { HasRoom strip.old (length (bytes_of (summary_lsa body.bytes.now body.offset))) }
    ensures { Pushed (summary_lsa body.entry.bytes.now body.entry.offset) strip.old strip.new result }
{
    if body.len() < 8 {
        return Body::Raw;
    }
    push_at::<Ipv4>(strip, v2::NETWORK_MASK, body, 0);
    push_metric24_at(strip, v2::METRIC, body, METRIC_AT);
    let consumed = push_tos_metrics::<SummaryTosMetric>(strip, body, 8);
    decoded(2, 8, consumed)
}

// RFC 2328 A.4.5 and RFC 3101, types 5 and 7: Network Mask, the fields of TOS 0, TOS metrics.
pub fn push_external_lsa(strip: &mut Writer, body: Part) -> Body
    requires { HasRoom strip.old (length (bytes_of (external_lsa2 body.bytes.now body.offset))) }
    ensures { Pushed (external_lsa2 body.entry.bytes.now body.entry.offset) strip.old strip.new result }
{
    if body.len() < 16 {
        return Body::Raw;
    }
    push_external_fields(strip, body);
    let consumed = push_tos_metrics::<ExternalTosMetric>(strip, body, 16);
    decoded(5, 16, consumed)
}

fn push_external_fields(strip: &mut Writer, body: Part)
    requires room { HasRoom strip.old (length (encode (external_fields body.bytes.now body.offset))) }
    requires in_bounds { 16 ≤ length body.bytes.now }
    ensures { Writes strip.old (encode (external_fields body.entry.bytes.now body.entry.offset)) strip.new }
{
    push_at::<Ipv4>(strip, v2::NETWORK_MASK, body, 0);
    push_bit_at(strip, v2::FLAG_E, body, 4, 0x80);
    push_metric24_at(strip, v2::METRIC, body, METRIC_AT);
    push_at::<Ipv4>(strip, v2::FORWARDING_ADDRESS, body, 8);
    push_at::<U32>(strip, v2::EXTERNAL_ROUTE_TAG, body, 12);
}

// A body of so many fields before the place `first`, from where its TOS metrics go up to `consumed`: their array is one entry more,
// where there are any.
fn decoded(fields: u8, first: usize, consumed: usize) -> Body
    requires { fields < 255 }
    ensures { result ≡ Decoded (fields + cond (ltb first consumed) 1 0) consumed }
{
    let arrays = if first < consumed { 1 } else { 0 };
    Body::Decoded {
        entries: fields + arrays,
        consumed,
    }
}

// The TOS metrics from a place on, as many as the body holds, if there are any. Answers the place where they end.
fn push_tos_metrics<I: Item>(strip: &mut Writer, body: Part, first: usize) -> usize
    requires room { HasRoom strip.old (length (encode (listing_if_any 20 (I.entries body.bytes.now body.offset) body.offset first (whole I.SIZE body.bytes.now first)))) }
    requires first_in_bounds { first ≤ length body.bytes.now }
    ensures wrote { Writes strip.old (encode (listing_if_any 20 (I.entries body.entry.bytes.now body.entry.offset) body.entry.offset first (whole I.SIZE body.entry.bytes.now first))) strip.new }
    ensures end_value { result ≡ after first (whole I.SIZE body.entry.bytes.now first) }
{
    let count = (body.len() - first) / I::SIZE;
    push_array_if_any::<I>(strip, v2::TOS_METRICS, body, first, count)
}

// A TOS metric of a Summary-LSA.
struct SummaryTosMetric;

impl Item for SummaryTosMetric {
    const SIZE: usize = 4;

    ghost SIZE = { 4 };

    ghost entries = { summary_tos };

    fn push(strip: &mut Writer, body: Part, p: usize) {
        begin_container(strip, TOS_METRIC_OR_PREFIX, body.range(p, Self::SIZE), 2);
        push_at::<U8>(strip, v2::TOS, body, p);
        push_metric24_at(strip, v2::TOS_METRIC, body, p + 1);
        end_container(strip);
    }

    fn measure(body: Part, p: usize) -> usize {
        CONTAINER_LENGTH + U8_LENGTH + measure_metric24(body.bytes, p + 1)
    }

    ghost size_nonzero = { Prim.search rules };

    ghost one = { one_summary_tos };
}

// A TOS metric of an external LSA.
struct ExternalTosMetric;

impl Item for ExternalTosMetric {
    const SIZE: usize = 12;

    ghost SIZE = { 12 };

    ghost entries = { external_tos };

    fn push(strip: &mut Writer, body: Part, p: usize) {
        begin_container(strip, TOS_METRIC_OR_PREFIX, body.range(p, Self::SIZE), 5);
        // The E bit and the TOS are in one byte.
        push_bit_at(strip, v2::TOS_FLAG_E, body, p, 0x80);
        push_low_bits_at(strip, v2::TOS, body, p, 0x80);
        push_metric24_at(strip, v2::TOS_METRIC, body, p + 1);
        push_at::<Ipv4>(strip, v2::TOS_FORWARDING_ADDRESS, body, p + 4);
        push_at::<U32>(strip, v2::TOS_EXTERNAL_ROUTE_TAG, body, p + 8);
        end_container(strip);
    }

    fn measure(body: Part, p: usize) -> usize {
        let metric = measure_metric24(body.bytes, p + 1);
        CONTAINER_LENGTH + 2 * U8_LENGTH + metric + IPV4_LENGTH + U32_LENGTH
    }

    ghost size_nonzero = { Prim.search rules };

    ghost one = { one_external_tos };
}
