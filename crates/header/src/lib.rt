// The LSA header of both versions: its type and numbers, its reading from bytes, its entries in a strip, and which of two
// instances is newer.
#![tactic(auto, unfolding(format::specs::Strip::code, format::specs::Strip::direct, format::specs::Strip::encode, format::specs::Header::header_entries2, format::specs::Header::header_entries3))]

ghost use Rattle.std.specs.Prelude.{◌≡◌, ◌≤◌, length};
ghost use Rattle.format.specs.Header.{max_age, instance_entries, read_header, newness, newness_at, aged, younger};
ghost use Rattle.format.specs.Strip.{encode};
ghost use Rattle.header.specs.Answers.{meaning, reading_meaning, newness_meaning};
ghost use Rattle.strip_put.specs.Writer.{HasRoom, Writes};

pub use part::LsaPart;
use refusal::Refusal;
use std::cmp::Ordering;
use strip_ids::kind::{U16_LENGTH, U32_LENGTH};
use strip_push::field::{U16, U32};
use strip_push::push_at;
use strip_put::Writer;
use util::{read_be_u16, read_be_u32, read_ipv4_addr};
use walk_answer::is_known;

mod part;
pub mod v2;
pub mod v3;

// What both versions' headers say.
#[derive(Clone, Copy, PartialEq, Eq, Debug)]
pub struct LsaHeader {
    pub age: u16,
    pub ls_type: u16,
    pub link_state_id: u32,
    pub advertising_router: u32,
    pub sequence_number: u32,
    pub checksum: u16,
    pub length: u16,
}

// Which of two instances is newer.
#[derive(Clone, Copy, PartialEq, Eq, Debug)]
pub enum Newness {
    First,
    Second,
    Same,
}

impl LsaHeader {
    // The header's length in bytes (RFC 2328 A.4.1).
    pub const SIZE: usize = 20;
    // Where its fields lie: those of both versions, and those that are in one alone.
    pub const AGE_AT: usize = 0;

    pub const LINK_STATE_ID_AT: usize = 4;

    pub const ADVERTISING_ROUTER_AT: usize = 8;

    pub const SEQUENCE_NUMBER_AT: usize = 12;

    pub const CHECKSUM_AT: usize = 16;

    pub const LENGTH_AT: usize = 18;

    pub const V2_OPTIONS_AT: usize = 2;

    pub const V2_TYPE_AT: usize = 3;

    pub const V2_OPAQUE_TYPE_AT: usize = 4;

    pub const V2_OPAQUE_ID_AT: usize = 5;

    pub const V3_TYPE_AT: usize = 2;
    // MaxAge and MaxAgeDiff, in seconds (RFC 2328 appendix B).
    pub const MAX_AGE: u16 = 3600;

    pub const MAX_AGE_DIFF: u16 = 900;

    // The header at the front of an LSA of this version. Inlined: a Result of this size is else written and read back.
    #[inline(always)]
    #[tactic(auto, unfolding(format::specs::Header::read_header))]
    pub fn read(version: u8, bytes: &[u8]) -> Result<LsaHeader, Refusal>
        ensures { reading_meaning result ≡ read_header version bytes.now }
    {
        if !is_known(version) {
            return Err(Refusal::NoVersion);
        }
        if bytes.len() < LsaHeader::SIZE {
            return Err(Refusal::TooLittle);
        }
        let ls_type = if version == 2 {
            u16::from(bytes[LsaHeader::V2_TYPE_AT])
        } else {
            read_be_u16(bytes, LsaHeader::V3_TYPE_AT)
        };
        Ok(LsaHeader {
            age: read_be_u16(bytes, LsaHeader::AGE_AT),
            ls_type,
            link_state_id: read_be_u32(bytes, LsaHeader::LINK_STATE_ID_AT),
            advertising_router: read_ipv4_addr(bytes, LsaHeader::ADVERTISING_ROUTER_AT),
            sequence_number: read_be_u32(bytes, LsaHeader::SEQUENCE_NUMBER_AT),
            checksum: read_be_u16(bytes, LsaHeader::CHECKSUM_AT),
            length: read_be_u16(bytes, LsaHeader::LENGTH_AT),
        })
    }
}

// What `push_instance_fields` writes.
const INSTANCE_LENGTH: usize = U32_LENGTH + 2 * U16_LENGTH;

// LS sequence number, LS checksum and length, whose ids follow one another from id on.
fn push_instance_fields(strip: &mut Writer, id: u8, lsa: LsaPart)
    requires room { HasRoom strip.old (length (encode (instance_entries id lsa.part.bytes.now lsa.part.offset))) }
    requires id_bound { id ≤ 5 }
    ensures { Writes strip.old (encode (instance_entries id lsa.entry.part.bytes.now lsa.entry.part.offset)) strip.new }
{
    push_at::<U32>(strip, id, lsa.part, LsaHeader::SEQUENCE_NUMBER_AT);
    push_at::<U16>(strip, id + 1, lsa.part, LsaHeader::CHECKSUM_AT);
    push_at::<U16>(strip, id + 2, lsa.part, LsaHeader::LENGTH_AT);
}

// Which of two LSAs of one version, given by their bytes, is newer.
#[tactic(auto, unfolding(format::specs::Header::newness_at))]
pub fn newer_lsa(version: u8, first: &[u8], second: &[u8]) -> Result<Newness, Refusal>
    ensures { newness_meaning result ≡ newness_at version first.now second.now }
{
    let x = LsaHeader::read(version, first)?;
    let y = LsaHeader::read(version, second)?;
    newer(x, y)
}

// Which of two instances of an LSA is newer (RFC 2328 13.1). Sequence numbers are signed.
#[tactic(auto, unfolding(format::specs::Header::newness))]
pub fn newer(x: LsaHeader, y: LsaHeader) -> Result<Newness, Refusal>
    ensures { newness_meaning result ≡ newness (meaning x) (meaning y) }
{
    if LsaHeader::MAX_AGE < x.age || LsaHeader::MAX_AGE < y.age {
        return Err(Refusal::AgeTooLarge);
    }
    let a = x.sequence_number.cast_signed();
    let b = y.sequence_number.cast_signed();
    match a.cmp(&b).then(x.checksum.cmp(&y.checksum)) {
        Ordering::Greater => Ok(Newness::First),
        Ordering::Less => Ok(Newness::Second),
        Ordering::Equal => Ok(newer_by_age(x.age, y.age)),
    }
}

// The newer by age, all else alike.
fn newer_by_age(x: u16, y: u16) -> Newness
    requires x_le_max_age { x ≤ max_age }
    requires y_le_max_age { y ≤ max_age }
    ensures { newness_meaning (Ok result) ≡ aged x y (younger x y) }
{
    match (x == LsaHeader::MAX_AGE, y == LsaHeader::MAX_AGE) {
        (true, false) => Newness::First,
        (false, true) => Newness::Second,
        _ if x + LsaHeader::MAX_AGE_DIFF < y => Newness::First,
        _ if y + LsaHeader::MAX_AGE_DIFF < x => Newness::Second,
        _ => Newness::Same,
    }
}
