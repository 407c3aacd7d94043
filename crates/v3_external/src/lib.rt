// The part of v3_lsa.rs on the AS-External-LSA and the NSSA-LSA (RFC 5340 A.4.7, A.4.8).
#![tactic(auto, unfolding(format::specs::Strip::code, format::specs::Strip::encode, format::specs::V3::external_lsa3))]

ghost use Rattle.std.specs.Prelude.{◌≡◌, ℕ, ◌+◌, ◌≤◌, cond, length, MatchOption};
ghost use Rattle.std.proofs.Math.Option.{some};
ghost use Rattle.format.specs.Body.Body.{raw};
ghost use Rattle.format.specs.Strip.{encode};
ghost use Rattle.format.specs.V3.{fixed_prefix_fits, has_forwarding, has_tag, has_reference, external_end, external_flags, external_prefix, external_optional, external_lsa3};
ghost use Rattle.body.specs.Answers.{bytes_of, Pushed};
ghost use Rattle.strip_put.specs.Writer.{HasRoom, Writes};

use body::Body;
use strip_ids::v3;
use strip_push::field::{U8, U16, U32};
use strip_push::{push_at, push_bit_at, push_ipv6_at, push_metric24_at};
use strip_put::{Part, Writer};
use util::read_be_u16;
use v3_prefix::fixed_prefix_fits;

pub mod measure;

// AS-External-LSA and NSSA-LSA: flags, Metric, prefix, and the optional parts (RFC 5340 A.4.7, A.4.8).
pub fn push_external_lsa(strip: &mut Writer, body: Part) -> Body
    requires { HasRoom strip.old (length (bytes_of (external_lsa3 body.bytes.now body.offset))) }
    ensures { Pushed (external_lsa3 body.entry.bytes.now body.entry.offset) strip.old strip.new result }
{
    let Some(external) = External::read(body) else {
        return Body::Raw;
    };
    external.push_flags(strip);
    external.push_prefix(strip);
    external.push_optional(strip);
    Body::Decoded {
        entries: 9 + external.count_optional(),
        consumed: external.end,
    }
}

// An external whose parts all lie in its body: the octets of its prefix, whether it has a Forwarding Address (its bit F), an
// External Route Tag (its bit T) and a Referenced Link State ID (its Referenced LS Type is not zero), and where the last ends.
#[derive(Clone, Copy, PartialEq, Eq, Debug)]
struct External<'a> {
    body: Part<'a>,
    octets: usize,
    forwarding: bool,
    tag: bool,
    reference: bool,
    end: usize,
    ghost octets_value: { fixed_prefix_fits body.bytes.now ≡ some octets },
    ghost octets_bound: { octets ≤ 16 },
    ghost forwarding_value: { forwarding ≡ has_forwarding body.bytes.now },
    ghost tag_value: { tag ≡ has_tag body.bytes.now },
    ghost reference_value: { reference ≡ has_reference body.bytes.now },
    ghost end_value: { end ≡ external_end body.bytes.now octets },
    ghost within: { end ≤ length body.bytes.now },
}

impl<'a> External<'a> {
    // The one at the front of a body, if one fits.
    fn read(body: Part<'a>) -> Option<External<'a>>
        ensures { MatchOption result ((o : ℕ) → external_lsa3 body.entry.bytes.now o ≡ raw) (λ x. x.body ≡ body.entry) }
    {
        let bytes = body.bytes;
        let octets = fixed_prefix_fits(bytes)?;
        let forwarding = bytes[0] & 0x02 != 0;
        let tag = bytes[0] & 0x01 != 0;
        let reference = read_be_u16(bytes, 6) != 0;
        let end = 8
            + octets
            + if forwarding { 16 } else { 0 }
            + if tag { 4 } else { 0 }
            + if reference { 4 } else { 0 };
        if body.len() < end {
            return None;
        }
        Some(External {
            body,
            octets,
            forwarding,
            tag,
            reference,
            end,
        })
    }

    // The bits E, F and T.
    fn push_flags(self, strip: &mut Writer)
        requires { HasRoom strip.old (length (encode (external_flags self.body.bytes.now self.body.offset))) }
        ensures { Writes strip.old (encode (external_flags self.entry.body.bytes.now self.entry.body.offset)) strip.new }
    {
        push_at::<U8>(strip, v3::FLAGS, self.body, 0);
        push_bit_at(strip, v3::FLAG_E, self.body, 0, 0x04);
        push_bit_at(strip, v3::FLAG_F, self.body, 0, 0x02);
        push_bit_at(strip, v3::FLAG_T, self.body, 0, 0x01);
    }

    // Metric, PrefixLength, PrefixOptions, Referenced LS Type, and the prefix.
    fn push_prefix(self, strip: &mut Writer)
        requires { HasRoom strip.old (length (encode (external_prefix self.body.bytes.now self.body.offset self.octets))) }
        ensures { Writes strip.old (encode (external_prefix self.entry.body.bytes.now self.entry.body.offset self.entry.octets)) strip.new }
    {
        push_metric24_at(strip, v3::METRIC, self.body, 1);
        push_at::<U8>(strip, v3::PREFIX_LENGTH, self.body, 4);
        push_at::<U8>(strip, v3::PREFIX_OPTIONS, self.body, 5);
        push_at::<U16>(strip, v3::REFERENCED_LS_TYPE, self.body, 6);
        push_ipv6_at(strip, v3::PREFIX, self.body, 8, self.octets);
    }

    // How many of the optional parts are present, each of which is one entry.
    fn count_optional(self) -> u8
        ensures count_value { let b = self.entry.body.bytes.now in result ≡ cond (has_forwarding b) 1 0 + (cond (has_tag b) 1 0 + cond (has_reference b) 1 0) }
        ensures upper_bound { result ≤ 3 }
    {
        let forwarding = if self.forwarding { 1 } else { 0 };
        let tag = if self.tag { 1 } else { 0 };
        let reference = if self.reference { 1 } else { 0 };
        forwarding + tag + reference
    }

    // Forwarding Address, External Route Tag and Referenced Link State ID, as present, in this order.
    fn push_optional(self, strip: &mut Writer)
        requires { HasRoom strip.old (length (encode (external_optional self.body.bytes.now self.body.offset self.octets))) }
        ensures { Writes strip.old (encode (external_optional self.entry.body.bytes.now self.entry.body.offset self.entry.octets)) strip.new }
    {
        let mut p = 8 + self.octets;
        if self.forwarding {
            push_ipv6_at(strip, v3::FORWARDING_ADDRESS, self.body, p, 16);
            p += 16;
        }
        if self.tag {
            push_at::<U32>(strip, v3::EXTERNAL_ROUTE_TAG, self.body, p);
            p += 4;
        }
        if self.reference {
            push_at::<U32>(strip, v3::REFERENCED_LINK_STATE_ID, self.body, p);
        }
    }
}
