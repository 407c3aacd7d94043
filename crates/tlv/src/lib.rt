// tlv.rs: address prefixes of version 3 (RFC 5340 A.4.1), and their comparison.
#![tactic(auto)]

ghost use Rattle.std.specs.Prelude.{◌≡◌, ◌+◌, ◌*◌, ◌/◌, ◌≤◌, length};
ghost use Rattle.format.specs.Prefix.{octets, address, same_bits, comparison};
ghost use Rattle.util.specs.Answers.{option_of};
ghost use Rattle.tlv.specs.Answers.{comparison_meaning};

use refusal::Refusal;
use util::read_be_u32;

// The longest prefix, in bits.
const MAX_PREFIX_LENGTH: u8 = 128;

#[tactic(auto, unfolding(format::specs::Prefix::octets))]
pub fn prefix_octets(prefix_length: u8) -> Option<usize>
    ensures { result ≡ option_of (octets prefix_length) }
{
    if prefix_length <= MAX_PREFIX_LENGTH {
        Some((prefix_length as usize + 31) / 32 * 4)
    } else {
        None
    }
}

// The address of a prefix's octets: those, then zeros to 16.
#[tactic(auto, using(crate::proofs::Addresses::filled))]
pub fn prefix_to_ipv6(bytes: &[u8]) -> [u8; 16]
    ensures { result ≡ address bytes.now }
{
    let mut addr = [0u8; 16];
    let n = bytes.len().min(16);
    addr[..n].copy_from_slice(&bytes[..n]);
    addr
}

// A prefix as it lies in a packet: its length in bits, and its octets. It has no `==`, which would compare the padding too.
#[derive(Clone, Copy, Debug)]
pub struct Prefix<'a> {
    pub length: u8,
    pub octets: &'a [u8],
}

// Whether the first bits agree, as many as the length says: word by word, and of the last one without the bits past the length.
#[inline(always)]
fn same_bits(prefix_length: u8, a: &[u8], b: &[u8]) -> bool
    requires first { (prefix_length + 31) / 32 * 4 ≤ length a.now }
    requires second { (prefix_length + 31) / 32 * 4 ≤ length b.now }
    ensures { result ≡ same_bits prefix_length a.now b.now }
{
    let whole = usize::from(prefix_length / 32);
    for i in 0..whole {
        if read_be_u32(a, i * 4) != read_be_u32(b, i * 4) {
            return false;
        }
    }
    let rest = prefix_length % 32;
    rest == 0
        || read_be_u32(a, whole * 4) >> (32 - rest) == read_be_u32(b, whole * 4) >> (32 - rest)
}

// Whether the first bits of two addresses agree, where octets of them are left out: zeros stand for those.
#[cold]
fn same_filled_bits(prefix_length: u8, a: &[u8], b: &[u8]) -> bool
    requires { prefix_length ≤ 128 }
    ensures { result ≡ same_bits prefix_length (address a.now) (address b.now) }
{
    same_bits(prefix_length, &prefix_to_ipv6(a), &prefix_to_ipv6(b))
}

// Whether the first bits of two addresses agree. Where the octets are all there, as in a packet, they are compared as they lie.
#[tactic(auto, using(format::proofs::Prefix::same_octets), unfolding(format::specs::Prefix::octets))]
fn same_address_bits(prefix_length: u8, a: &[u8], b: &[u8]) -> bool
    requires { prefix_length ≤ 128 }
    ensures { result ≡ same_bits prefix_length (address a.now) (address b.now) }
{
    match prefix_octets(prefix_length) {
        Some(n) if n <= a.len() && n <= b.len() => same_bits(prefix_length, a, b),
        _ => same_filled_bits(prefix_length, a, b),
    }
}

// Whether two prefixes are the same: when their lengths agree, and so do the first bits, as many as the length says. Those
// past them are padding.
#[tactic(auto, using(crate::proofs::Addresses::compared), unfolding(format::specs::Prefix::comparison))]
pub fn compare_prefixes(a: Prefix, b: Prefix) -> Result<bool, Refusal>
    ensures { comparison_meaning result ≡ comparison a.entry.length (address a.entry.octets.now) b.entry.length (address b.entry.octets.now) }
{
    if MAX_PREFIX_LENGTH < a.length || MAX_PREFIX_LENGTH < b.length {
        return Err(Refusal::PrefixTooLong);
    }
    Ok(a.length == b.length && same_address_bits(a.length, a.octets, b.octets))
}
