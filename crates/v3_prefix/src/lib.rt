// The prefixes of version 3 (RFC 5340 A.4.1): whether one fits in a body, and a list of them. The LSAs that have a list are
// in crate `v3_prefix_lsa`.
#![tactic(auto, unfolding(format::specs::Strip::code, format::specs::Strip::encode, format::specs::Strip::container, format::specs::Cut::standing, format::specs::Prefix::octets, format::specs::V3::prefix_fits, format::specs::V3::prefix))]

ghost use Rattle.std.specs.Prelude.{◌≡◌, ◌+◌, ◌≤◌, IfSome, length};
ghost use Rattle.format.specs.Body.{listing};
ghost use Rattle.format.specs.Cut.{cut, after, prefix_rule};
ghost use Rattle.format.specs.Strip.{encode};
ghost use Rattle.format.specs.V3.{fixed_prefix_fits, prefix};
ghost use Rattle.strip_put.specs.Writer.{HasRoom, Writes};
ghost use Rattle.util.specs.Answers.{option_of};
ghost use Rattle.format.proofs.Direct.{one_prefix};
ghost use Rattle.format.proofs.Rules.{inside};

use body::list::{Record, push_list};
use strip_ids::kind::{CONTAINER_LENGTH, IPV6_LENGTH, U8_LENGTH, U16_LENGTH};
use strip_ids::{TOS_METRIC_OR_PREFIX, v3};
use strip_push::field::{U8, U16};
use strip_push::{begin_container, end_container, push_at, push_ipv6_at};
use strip_put::{Part, Writer};
use tlv::prefix_octets;

pub mod measure;

// The octets of the prefix whose length is byte 4 of a body and that begins at 8, if they lie in the body.
pub fn fixed_prefix_fits(body: &[u8]) -> Option<usize>
    ensures octets { result ≡ option_of (fixed_prefix_fits body.now) }
    ensures within { IfSome result (λ n. (8 + n ≤ length body.now) × (n ≤ 16)) }
{
    let n = prefix_octets(*body.get(4)?)?;
    (8 + n <= body.len()).then_some(n)
}

// An entry of a list of prefixes: 4 bytes, then the octets. Its field of 16 bits is a metric, or it is not shown.
struct Prefix<const WITH_METRIC: bool>;

impl<const WITH_METRIC: bool> Record for Prefix<WITH_METRIC> {
    ghost rule = { prefix_rule };

    ghost entries = { prefix WITH_METRIC };

    fn fits(body: &[u8], p: usize) -> Option<usize> {
        let n = 4 + prefix_octets(*body.get(p)?)?;
        (n <= body.len() - p).then_some(n)
    }

    fn push(strip: &mut Writer, body: Part, p: usize, n: usize) {
        let entries = if WITH_METRIC { 4 } else { 3 };
        begin_container(strip, TOS_METRIC_OR_PREFIX, body.range(p, n), entries);
        push_at::<U8>(strip, v3::LIST_PREFIX_LENGTH, body, p);
        push_at::<U8>(strip, v3::LIST_PREFIX_OPTIONS, body, p + 1);
        if WITH_METRIC {
            push_at::<U16>(strip, v3::LIST_PREFIX_METRIC, body, p + 2);
        }
        push_ipv6_at(strip, v3::LIST_PREFIX, body, p + 4, n - 4);
        end_container(strip);
    }

    fn measure(_body: Part, _p: usize, _n: usize) -> usize {
        let metric = if WITH_METRIC { U16_LENGTH } else { 0 };
        CONTAINER_LENGTH + 2 * U8_LENGTH + metric + IPV6_LENGTH
    }

    ghost within = { λ b p n e. (inside 4 _ b p n e).within };

    ghost one = { λ b o s. one_prefix b o s WITH_METRIC };
}

// The prefixes from a place on, at most as many as the count. Answers the place where their list ends.
#[inline(always)]
pub fn push_prefixes<const WITH_METRIC: bool>(
    strip: &mut Writer,
    body: Part,
    first: usize,
    count: u32,
) -> usize
    requires room { HasRoom strip.old (length (encode (listing 29 (prefix WITH_METRIC body.bytes.now body.offset) body.offset first (cut prefix_rule body.bytes.now count first)))) }
    requires first_in_bounds { first ≤ length body.bytes.now }
    ensures wrote { Writes strip.old (encode (listing 29 (prefix WITH_METRIC body.entry.bytes.now body.entry.offset) body.entry.offset first (cut prefix_rule body.entry.bytes.now count first))) strip.new }
    ensures end_value { result ≡ after first (cut prefix_rule body.entry.bytes.now count first) }
{
    push_list::<Prefix<WITH_METRIC>>(strip, v3::PREFIXES, body, first, count)
}
