// The Router-LSA of version 2 into a strip, with its links and their TOS metrics: RFC 2328 A.4.2, and RFC 3101 for the Nt
// bit.
#![tactic(auto, unfolding(format::specs::Strip::code, format::specs::Strip::direct, format::specs::Strip::encode, format::specs::Strip::container, format::specs::V2::link_tos, format::specs::V2::router_lsa2))]

ghost use Rattle.std.specs.Prelude.{◌+◌, ◌≤◌, length};
ghost use Rattle.std.proofs.Common.{rules};
ghost use Rattle.format.specs.Strip.{encode};
ghost use Rattle.format.specs.Cut.{link_rule};
ghost use Rattle.format.specs.V2.{link, link_fields, link_tos, router_lsa2};
ghost use Rattle.format.proofs.Direct.{one_link_tos, one_link2};
ghost use Rattle.format.proofs.Rules.{link_inside_lem};
ghost use Rattle.body.specs.Answers.{Pushed, bytes_of};
ghost use Rattle.strip_put.specs.Writer.{HasRoom, Writes};

use body::list::{Item, Record, measure_array_if_any, push_array_if_any, push_list};
use body::{Body, push_router_flags};
use strip_ids::kind::{CONTAINER_LENGTH, IPV4_LENGTH, U8_LENGTH, U16_LENGTH, U32_LENGTH};
use strip_ids::{LINK, TOS_METRIC_OR_PREFIX, v2};
use strip_push::field::{Ipv4, U8, U16, Wide16};
use strip_push::{begin_container, end_container, push_at};
use strip_put::{Part, Writer};
use util::read_be_u16;

pub mod measure;

// RFC 2328 A.4.2: flags, 0, # links, links. There are at most as many links as that number says.
pub fn push_router_lsa(strip: &mut Writer, body: Part) -> Body
    requires { HasRoom strip.old (length (bytes_of (router_lsa2 body.bytes.now body.offset))) }
    ensures { Pushed (router_lsa2 body.entry.bytes.now body.entry.offset) strip.old strip.new result }
{
    if body.len() < 4 {
        return Body::Raw;
    }
    push_router_flags(strip, v2::FLAGS, body);
    push_at::<U16>(strip, v2::NUM_LINKS, body, 2);
    let count = u32::from(read_be_u16(body.bytes, 2));
    let consumed = push_list::<Link>(strip, v2::LINKS, body, 4, count);
    Body::Decoded {
        entries: 7,
        consumed,
    }
}

// A link: its fields, then as many TOS metrics as its byte 9 says.
struct Link;

impl Link {
    // The bytes of a link without its TOS metrics.
    const SIZE: usize = 12;

    // What `push` writes, without the array of TOS metrics.
    const LENGTH: usize = CONTAINER_LENGTH + 2 * IPV4_LENGTH + 2 * U8_LENGTH + U16_LENGTH;
}

#[tactic(auto, using(crate::proofs::Links::links), unfolding(format::specs::Strip::code, format::specs::Strip::encode, format::specs::Cut::standing))]
impl Record for Link {
    ghost rule = { link_rule };

    ghost entries = { link };

    // A link lies within the body, with all its TOS metrics.
    fn fits(body: &[u8], p: usize) -> Option<usize> {
        let left = body.len() - p;
        if left < Link::SIZE {
            return None;
        }
        let n = Link::SIZE + usize::from(body[p + 9]) * LinkTosMetric::SIZE;
        (n <= left).then_some(n)
    }

    fn push(strip: &mut Writer, body: Part, p: usize, n: usize) {
        let num_tos = usize::from(body.bytes[p + 9]);
        let arrays = if num_tos == 0 { 0 } else { 1 };
        begin_container(strip, LINK, body.range(p, n), 5 + arrays);
        push_link_fields(strip, body, p);
        push_array_if_any::<LinkTosMetric>(
            strip,
            v2::LINK_TOS_METRICS,
            body,
            p + Link::SIZE,
            num_tos,
        );
        end_container(strip);
    }

    fn measure(body: Part, p: usize, _n: usize) -> usize {
        let num_tos = usize::from(body.bytes[p + 9]);
        let metrics = measure_array_if_any::<LinkTosMetric>(body, p + Link::SIZE, num_tos);
        Link::LENGTH + metrics.length
    }

    ghost within = { λ b p n e. (link_inside_lem b p n e).0 };

    ghost one = { one_link2 };
}

fn push_link_fields(strip: &mut Writer, body: Part, p: usize)
    requires room { HasRoom strip.old (length (encode (link_fields body.bytes.now body.offset p))) }
    requires in_bounds { p + 12 ≤ length body.bytes.now }
    ensures { Writes strip.old (encode (link_fields body.entry.bytes.now body.entry.offset p)) strip.new }
{
    push_at::<Ipv4>(strip, v2::LINK_ID, body, p);
    push_at::<Ipv4>(strip, v2::LINK_DATA, body, p + 4);
    push_at::<U8>(strip, v2::LINK_TYPE, body, p + 8);
    push_at::<U8>(strip, v2::NUM_TOS, body, p + 9);
    push_at::<U16>(strip, v2::LINK_METRIC, body, p + 10);
}

// A link's TOS metric.
struct LinkTosMetric;

impl Item for LinkTosMetric {
    const SIZE: usize = 4;

    ghost SIZE = { 4 };

    ghost entries = { link_tos };

    fn push(strip: &mut Writer, body: Part, p: usize) {
        begin_container(strip, TOS_METRIC_OR_PREFIX, body.range(p, Self::SIZE), 2);
        push_at::<U8>(strip, v2::TOS, body, p);
        // The metric in a link's TOS entry has 16 bits, after a byte of 0; those of other LSAs have 24.
        push_at::<Wide16>(strip, v2::TOS_METRIC, body, p + 2);
        end_container(strip);
    }

    fn measure(_body: Part, _p: usize) -> usize {
        CONTAINER_LENGTH + U8_LENGTH + U32_LENGTH
    }

    ghost size_nonzero = { Prim.search rules };

    ghost one = { one_link_tos };
}
