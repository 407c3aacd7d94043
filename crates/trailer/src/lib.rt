// trailer.rs: the blocks that stand after an OSPF packet, into a strip. The LLS data block (RFC 5613 2.2), and the
// authentication trailer of OSPFv3 (RFC 7166 4.1).
#![tactic(auto, unfolding(format::specs::Strip::code, format::specs::Strip::direct, format::specs::Strip::encode, format::specs::Strip::container, format::specs::Trailer::lls_entries, format::specs::Trailer::auth_trailer_entries))]

ghost use Rattle.std.specs.Prelude.{◌≡◌, ℕ, ◌≤◌, ◌<◌, List, length};
ghost use Rattle.std.proofs.Common.{rules};
ghost use Rattle.std.proofs.Math.Option.{some};
ghost use Rattle.format.specs.Strip.{Entry, encode};
ghost use Rattle.format.specs.Cut.{Rule};
ghost use Rattle.format.specs.Trailer.{lls_header, lls_rule, lls_entries, lls_of, auth_trailer_header, auth_trailer_rule, auth_trailer_entries, auth_trailer_of, block_of, limit};
ghost use Rattle.format.proofs.Trailer.{lls_strip_length, lls_stands, trailer_strip_length, auth_trailer_stands};
ghost use Rattle.strip_put.specs.Writer.{HasRoom, Writes};
ghost use Rattle.trailer.specs.Answers.{Reads};
ghost use Rattle.util.specs.Answers.{option_of};

use refusal::Refusal;
use strip_ids::block;
use strip_ids::kind::{BYTES_LENGTH, CONTAINER_LENGTH, U16_LENGTH, U64_LENGTH};
use strip_push::field::{U16, U64};
use strip_push::{begin_container, end_container, push_at, push_bytes_at};
use strip_put::{Part, Writer};
use util::{declared_length, read_be_u16};
use walk_answer::{check_limits, check_room};

// A block at the front of the data: the strip's length and the block's.
#[derive(Clone, Copy, PartialEq, Eq, Debug)]
pub struct Block {
    pub strip: usize,
    pub block: usize,
}

// A kind of block.
trait Trailing {
    // The bytes of its fixed part.
    const HEADER_SIZE: usize;

    ghost HEADER_SIZE: { ℕ };

    // The length of its strip, whatever the block's length.
    const STRIP: usize;

    ghost STRIP: { ℕ };

    // How long the block is that stands at a place, if one does.
    ghost rule: { Rule };

    // What a block of a length is in a strip.
    ghost entries: { List ℕ → (offset len : ℕ) → List Entry };

    // The length of a block at the front of the data, if one stands there.
    fn len(data: &[u8]) -> Option<usize>
        requires { length «data».now ≤ 65535 }
        ensures { result ≡ option_of (rule «data».now 0) };

    fn push(strip: &mut Writer, data: Part, len: usize)
        requires room { HasRoom strip.old STRIP }
        requires covers { HEADER_SIZE ≤ len }
        requires in_bounds { len ≤ length «data».bytes.now }
        ensures { Writes strip.old (encode (entries «data».entry.bytes.now «data».entry.offset len)) strip.new };

    ghost strip_length: { (d : List ℕ) (offset len : ℕ) → length (encode (entries d offset len)) ≡ STRIP };

    ghost strip_fits: { STRIP < 4294967296 };

    // A block that stands has its fixed part, and lies in the data.
    ghost stands: { (d : List ℕ) (len : ℕ) → rule d 0 ≡ some len → (HEADER_SIZE ≤ len) × (len ≤ length d) };
}

pub fn push_lls(data: &[u8], offset: u64, strip: &mut [u8]) -> Result<Option<Block>, Refusal>
    ensures { Reads (lls_of «data».now offset) strip.old result strip.new }
{
    push_block::<Lls>(data, offset, strip)
}

pub fn push_auth_trailer(
    data: &[u8],
    offset: u64,
    strip: &mut [u8],
) -> Result<Option<Block>, Refusal>
    ensures { Reads (auth_trailer_of «data».now offset) strip.old result strip.new }
{
    push_block::<AuthTrailer>(data, offset, strip)
}

fn push_block<T: Trailing>(
    data: &[u8],
    offset: u64,
    strip: &mut [u8],
) -> Result<Option<Block>, Refusal>
    ensures { Reads (block_of (limit «data».now offset) (T.rule «data».now 0) (T.entries «data».now offset)) strip.old result strip.new }
{
    check_limits(data, offset)?;
    let Some(len) = T::len(data) else {
        return Ok(None);
    };
    check_room(strip, T::STRIP)?;
    T::push(
        &mut Writer::new(strip, 0),
        Part::new(data, offset as u32),
        len,
    );
    Ok(Some(Block {
        strip: T::STRIP,
        block: len,
    }))
}

struct Lls;

impl Trailing for Lls {
    const HEADER_SIZE: usize = 4;

    ghost HEADER_SIZE = { lls_header };

    const STRIP: usize = CONTAINER_LENGTH + 2 * U16_LENGTH + BYTES_LENGTH;

    ghost STRIP = { 49 };

    ghost rule = { lls_rule };

    ghost entries = { lls_entries };

    ghost strip_length = { lls_strip_length };

    ghost strip_fits = { Prim.search rules };

    ghost stands = { lls_stands };

    // Its own length counts words of 32 bits: one at least, and no more than the data have. One test sees both, since 0 less 1, in
    // 16 bits, is more words than any data have.
    fn len(data: &[u8]) -> Option<usize> {
        if data.len() < Self::HEADER_SIZE {
            return None;
        }
        let words = read_be_u16(data, 2) as usize;
        if (words + 65535) % 65536 >= data.len() / 4 {
            return None;
        }
        Some(words * 4)
    }

    fn push(strip: &mut Writer, data: Part, len: usize) {
        begin_container(strip, block::LLS, data.range(0, len), 3);
        push_at::<U16>(strip, block::LLS_CHECKSUM, data, 0);
        push_at::<U16>(strip, block::LLS_DATA_LENGTH, data, 2);
        push_bytes_at(
            strip,
            block::LLS_TLVS,
            data,
            Self::HEADER_SIZE,
            len - Self::HEADER_SIZE,
        );
        end_container(strip);
    }
}

struct AuthTrailer;

impl Trailing for AuthTrailer {
    const HEADER_SIZE: usize = 16;

    ghost HEADER_SIZE = { auth_trailer_header };

    const STRIP: usize = CONTAINER_LENGTH + 3 * U16_LENGTH + U64_LENGTH + BYTES_LENGTH;

    ghost STRIP = { 79 };

    ghost rule = { auth_trailer_rule };

    ghost entries = { auth_trailer_entries };

    ghost strip_length = { trailer_strip_length };

    ghost strip_fits = { Prim.search rules };

    ghost stands = { auth_trailer_stands };

    // Its own length counts octets.
    fn len(data: &[u8]) -> Option<usize> {
        declared_length(data, 0, Self::HEADER_SIZE, 2)
    }

    fn push(strip: &mut Writer, data: Part, len: usize) {
        begin_container(strip, block::AUTH_TRAILER, data.range(0, len), 5);
        push_at::<U16>(strip, block::AUTH_TYPE, data, 0);
        push_at::<U16>(strip, block::AUTH_DATA_LEN, data, 2);
        push_at::<U16>(strip, block::SA_ID, data, 6);
        push_at::<U64>(strip, block::CRYPTO_SEQUENCE_NUMBER, data, 8);
        let rest = len - Self::HEADER_SIZE;
        push_bytes_at(strip, block::AUTH_DATA, data, Self::HEADER_SIZE, rest);
        end_container(strip);
    }
}
