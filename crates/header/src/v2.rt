// The entries of a version 2 LSA header (RFC 2328 A.4.1, RFC 5250 3).
ghost use Rattle.std.specs.Prelude.{◌≡◌, ℕ, ◌≤◌, length};
ghost use Rattle.format.specs.Header.{header_size, header_entries2, identity_entries2, opaque_entries, is_opaque};
ghost use Rattle.format.specs.Strip.{direct, encode};
ghost use Rattle.strip_put.specs.Writer.{HasRoom, Writes};

use crate::{INSTANCE_LENGTH, LsaHeader, LsaPart, push_instance_fields};
use strip_ids::kind::{IPV4_LENGTH, U8_LENGTH, U16_LENGTH, U32_LENGTH};
use strip_ids::v2;
use strip_push::field::{Ipv4, U8, U16, U24};
use strip_push::push_at;
use strip_put::Writer;

// How long a header's fields are in a strip, and those of an opaque LSA's.
const FIELDS_LENGTH: usize = U16_LENGTH + 2 * U8_LENGTH + 2 * IPV4_LENGTH + INSTANCE_LENGTH;

const OPAQUE_FIELDS_LENGTH: usize = FIELDS_LENGTH + U8_LENGTH + U32_LENGTH;

// And how many.
const FIELDS: u8 = 8;

const OPAQUE_FIELDS: u8 = FIELDS + 2;

pub fn is_opaque(ls_type: u8) -> bool
    ensures { result ≡ is_opaque ls_type }
{
    9 <= ls_type && ls_type <= 11
}

// The length of what `push_lsa_header_fields` writes, wherever the header lies.
pub fn measure_lsa_header_fields(lsa: &[u8]) -> usize
    requires { header_size ≤ length lsa.now }
    ensures by_index { (o : ℕ) → result ≡ length (encode (header_entries2 lsa.now o)) }
    ensures upper_bound { result ≤ 125 }
{
    if is_opaque(lsa[LsaHeader::V2_TYPE_AT]) {
        OPAQUE_FIELDS_LENGTH
    } else {
        FIELDS_LENGTH
    }
}

// Answers how many entries that is.
#[inline(always)]
pub fn push_lsa_header_fields(strip: &mut Writer, lsa: LsaPart) -> u8
    requires { HasRoom strip.old (length (encode (header_entries2 lsa.part.bytes.now lsa.part.offset))) }
    ensures wrote { Writes strip.old (encode (header_entries2 lsa.entry.part.bytes.now lsa.entry.part.offset)) strip.new }
    ensures entries_value { result ≡ direct 0 (header_entries2 lsa.entry.part.bytes.now lsa.entry.part.offset) }
{
    push_identity_fields(strip, lsa);
    push_instance_fields(strip, v2::LS_SEQUENCE_NUMBER, lsa);
    if is_opaque(lsa.part.bytes[LsaHeader::V2_TYPE_AT]) {
        push_opaque_fields(strip, lsa);
        OPAQUE_FIELDS
    } else {
        FIELDS
    }
}

fn push_identity_fields(strip: &mut Writer, lsa: LsaPart)
    requires { HasRoom strip.old (length (encode (identity_entries2 lsa.part.bytes.now lsa.part.offset))) }
    ensures { Writes strip.old (encode (identity_entries2 lsa.entry.part.bytes.now lsa.entry.part.offset)) strip.new }
{
    push_at::<U16>(strip, v2::LS_AGE, lsa.part, LsaHeader::AGE_AT);
    push_at::<U8>(strip, v2::OPTIONS, lsa.part, LsaHeader::V2_OPTIONS_AT);
    push_at::<U8>(strip, v2::LS_TYPE, lsa.part, LsaHeader::V2_TYPE_AT);
    push_at::<Ipv4>(
        strip,
        v2::LINK_STATE_ID,
        lsa.part,
        LsaHeader::LINK_STATE_ID_AT,
    );
    push_at::<Ipv4>(
        strip,
        v2::ADVERTISING_ROUTER,
        lsa.part,
        LsaHeader::ADVERTISING_ROUTER_AT,
    );
}

// The Link State ID of an opaque LSA, as its two parts.
fn push_opaque_fields(strip: &mut Writer, lsa: LsaPart)
    requires { HasRoom strip.old (length (encode (opaque_entries lsa.part.bytes.now lsa.part.offset))) }
    ensures { Writes strip.old (encode (opaque_entries lsa.entry.part.bytes.now lsa.entry.part.offset)) strip.new }
{
    push_at::<U8>(
        strip,
        v2::OPAQUE_TYPE,
        lsa.part,
        LsaHeader::V2_OPAQUE_TYPE_AT,
    );
    push_at::<U24>(strip, v2::OPAQUE_ID, lsa.part, LsaHeader::V2_OPAQUE_ID_AT);
}
