// The entries of a version 3 LSA header (RFC 5340 A.4.2).
ghost use Rattle.std.specs.Prelude.{◌≡◌, ℕ, ◌≤◌, List, length};
ghost use Rattle.format.specs.Header.{header_entries3, identity_entries3};
ghost use Rattle.format.specs.Strip.{direct, encode};
ghost use Rattle.strip_put.specs.Writer.{HasRoom, Writes};

use crate::{INSTANCE_LENGTH, LsaHeader, LsaPart, push_instance_fields};
use strip_ids::kind::{IPV4_LENGTH, U16_LENGTH, U32_LENGTH};
use strip_ids::v3;
use strip_push::field::{Ipv4, U16, U32};
use strip_push::push_at;
use strip_put::Writer;

// How long a header's fields are in a strip, and how many.
const FIELDS_LENGTH: usize = 2 * U16_LENGTH + U32_LENGTH + IPV4_LENGTH + INSTANCE_LENGTH;

const FIELDS: u8 = 7;

// The length of what `push_lsa_header_fields` writes, whatever the header says and wherever it lies.
pub fn measure_lsa_header_fields() -> usize
    ensures by_index { (b : List ℕ) (o : ℕ) → result ≡ length (encode (header_entries3 b o)) }
    ensures upper_bound { result ≤ 125 }
{
    FIELDS_LENGTH
}

// Answers how many entries that is.
#[inline(always)]
pub fn push_lsa_header_fields(strip: &mut Writer, lsa: LsaPart) -> u8
    requires { HasRoom strip.old (length (encode (header_entries3 lsa.part.bytes.now lsa.part.offset))) }
    ensures wrote { Writes strip.old (encode (header_entries3 lsa.entry.part.bytes.now lsa.entry.part.offset)) strip.new }
    ensures entries_value { result ≡ direct 0 (header_entries3 lsa.entry.part.bytes.now lsa.entry.part.offset) }
{
    push_identity_fields(strip, lsa);
    push_instance_fields(strip, v3::LS_SEQUENCE_NUMBER, lsa);
    FIELDS
}

fn push_identity_fields(strip: &mut Writer, lsa: LsaPart)
    requires { HasRoom strip.old (length (encode (identity_entries3 lsa.part.bytes.now lsa.part.offset))) }
    ensures { Writes strip.old (encode (identity_entries3 lsa.entry.part.bytes.now lsa.entry.part.offset)) strip.new }
{
    push_at::<U16>(strip, v3::LS_AGE, lsa.part, LsaHeader::AGE_AT);
    push_at::<U16>(strip, v3::LS_TYPE, lsa.part, LsaHeader::V3_TYPE_AT);
    push_at::<U32>(
        strip,
        v3::LINK_STATE_ID,
        lsa.part,
        LsaHeader::LINK_STATE_ID_AT,
    );
    push_at::<Ipv4>(
        strip,
        v3::ADVERTISING_ROUTER,
        lsa.part,
        LsaHeader::ADVERTISING_ROUTER_AT,
    );
}
