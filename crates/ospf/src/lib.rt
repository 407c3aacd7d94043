// The library for the host, in C's calling convention: numbers as themselves, a slice as a pointer and a length. The answer is
// one number: the result in the low 32 bits (of a walk the strip's length), the refusal's number in the next 8, and in the rest
// the length of a block after a packet, or how many rows an update added, of all others zero.
#![tactic(auto)]

ghost use Rattle.std.specs.Prelude.{◌≡◌, ◌<◌, length, map, IfOk, MatchResult};
ghost use Rattle.format.specs.Walks.{headers_of, update_of, lsa_of, answer_of, strip_of};
ghost use Rattle.format.specs.Header.{newness_at};
ghost use Rattle.format.specs.Book.{book_update};
ghost use Rattle.format.specs.Prefix.{address, comparison};
ghost use Rattle.format.specs.Strip.{step_at};
ghost use Rattle.format.specs.Checksum.{check, making, made_lsa};
ghost use Rattle.format.specs.Trailer.{lls_of, auth_trailer_of, block_answer, block_strip};
ghost use Rattle.format.specs.Packed.{word, packed, packed_newness, packed_comparison, packed_step, packed_check, packed_making, packed_block, packed_update};
ghost use Rattle.book.specs.Rows.{meaning};
ghost use Rattle.trailer.specs.Answers.{block_meaning, Small};
ghost use Rattle.walk_answer.specs.Answers.{answer_meaning};
ghost use Rattle.refusal.specs.Numbers.{number_of};

use book::{Row, take_update};
use checksum::{check_checksum, make_checksum};
use header::{Newness, newer_lsa};
use refusal::Refusal;
use strip_step::step_at;
use tlv::{Prefix, compare_prefixes};
use trailer::{Block, push_auth_trailer, push_lls};
use walk_answer::Answer;

#[unsafe(no_mangle)]
pub extern "C" fn ospf_lsa_headers(version: u8, data: &[u8], offset: u64, strip: &mut [u8]) -> u64
    ensures value { result ≡ packed (answer_of (headers_of version «data».now offset) (length strip.old)) }
    ensures strip_after { strip.new ≡ strip_of (headers_of version «data».now offset) strip.old }
{
    walk_word(walk::push_lsa_headers(version, data, offset, strip))
}

#[unsafe(no_mangle)]
pub extern "C" fn ospf_lsu_lsas(
    version: u8,
    data: &[u8],
    count: u32,
    offset: u64,
    strip: &mut [u8],
) -> u64
    ensures value { result ≡ packed (answer_of (update_of version «data».now count offset) (length strip.old)) }
    ensures strip_after { strip.new ≡ strip_of (update_of version «data».now count offset) strip.old }
{
    walk_word(walk::push_lsu_lsas(version, data, count, offset, strip))
}

#[unsafe(no_mangle)]
pub extern "C" fn ospf_lsa(version: u8, data: &[u8], offset: u64, strip: &mut [u8]) -> u64
    ensures value { result ≡ packed (answer_of (lsa_of version «data».now offset) (length strip.old)) }
    ensures strip_after { strip.new ≡ strip_of (lsa_of version «data».now offset) strip.old }
{
    walk_word(walk::push_lsa(version, data, offset, strip))
}

// Which of two LSAs is newer, by the headers at their fronts: 0 neither, 1 the first, 2 the second.
#[unsafe(no_mangle)]
pub extern "C" fn ospf_newness(version: u8, first: &[u8], second: &[u8]) -> u64
    ensures { result ≡ packed_newness (newness_at version first.now second.now) }
{
    let newness = newer_lsa(version, first, second);
    answer_word(newness.map(|newness| match newness {
        Newness::Same => 0,
        Newness::First => 1,
        Newness::Second => 2,
    }))
}

// Whether two prefixes are the same: 1 or 0. Each is a length in bits and octets as they lie in a packet; the bits past the
// length are not looked at.
#[unsafe(no_mangle)]
pub extern "C" fn ospf_prefix_compare(
    first_length: u8,
    first: &[u8],
    second_length: u8,
    second: &[u8],
) -> u64
    ensures { result ≡ packed_comparison (comparison first_length (address first.now) second_length (address second.now)) }
{
    let a = Prefix {
        length: first_length,
        octets: first,
    };
    let b = Prefix {
        length: second_length,
        octets: second,
    };
    answer_word(compare_prefixes(a, b).map(usize::from))
}

// The length of the entry that stands at a place of a strip, 0 at its end.
#[tactic(auto, using(crate::proofs::Meanings::entry_length))]
#[unsafe(no_mangle)]
pub extern "C" fn ospf_strip_step(strip: &[u8], place: usize) -> u64
    ensures { result ≡ packed_step place (step_at strip.now place) }
{
    match step_at(strip, place) {
        Ok(Some((_, next))) => pack(0, next - place),
        Ok(None) => pack(0, 0),
        Err(refused) => pack(refused.number(), 0),
    }
}

// Whether the LS checksum of an LSA is right: 1 or 0.
#[unsafe(no_mangle)]
pub extern "C" fn ospf_lsa_checksum_check(lsa: &[u8]) -> u64
    ensures { result ≡ packed_check (check lsa.now) }
{
    answer_word(check_checksum(lsa).map(usize::from))
}

// Makes the LS checksum of an LSA and writes it there: its two bytes, as a number of 16 bits.
#[unsafe(no_mangle)]
pub extern "C" fn ospf_lsa_checksum_make(lsa: &mut [u8]) -> u64
    ensures value { result ≡ packed_making (making lsa.old) }
    ensures lsa_after { lsa.new ≡ made_lsa (making lsa.old) lsa.old }
{
    answer_word(make_checksum(lsa).map(usize::from))
}

// The LLS data block at the front of the data, if one stands there.
#[unsafe(no_mangle)]
pub extern "C" fn ospf_lls(data: &[u8], offset: u64, strip: &mut [u8]) -> u64
    ensures value { result ≡ packed_block (block_answer (lls_of «data».now offset) (length strip.old)) }
    ensures strip_after { strip.new ≡ block_strip (lls_of «data».now offset) strip.old }
{
    block_word(push_lls(data, offset, strip))
}

// The authentication trailer of OSPFv3 at the front of the data, if one stands there.
#[unsafe(no_mangle)]
pub extern "C" fn ospf_auth_trailer(data: &[u8], offset: u64, strip: &mut [u8]) -> u64
    ensures value { result ≡ packed_block (block_answer (auth_trailer_of «data».now offset) (length strip.old)) }
    ensures strip_after { strip.new ≡ block_strip (auth_trailer_of «data».now offset) strip.old }
{
    block_word(push_auth_trailer(data, offset, strip))
}

// An update's LSAs taken against a table of rows: the replacements, and above the number the additions.
#[unsafe(no_mangle)]
pub extern "C" fn ospf_book_update(
    version: u8,
    data: &[u8],
    count: u32,
    offset: u64,
    rows: &mut [Row],
) -> u64
    ensures value { result ≡ packed_update (book_update version «data».now count offset (map meaning rows.old)) }
    ensures rows_after { map meaning rows.new ≡ (book_update version «data».now count offset (map meaning rows.old)).book.rows }
{
    match take_update(version, data, count, offset, rows) {
        Ok(taken) => taken.added as u64 * 1099511627776 + pack(0, taken.replaced),
        Err(refusal) => pack(refusal.number(), 0),
    }
}

fn walk_word(answer: Result<Answer, Refusal>) -> u64
    requires { (answer_meaning answer).size < 4294967296 }
    ensures { result ≡ packed (answer_meaning answer) }
{
    match answer {
        Ok(answer) => pack(0, answer.length),
        Err(refusal) => pack(refusal.number(), refusal.needed()),
    }
}

fn block_word(answer: Result<Option<Block>, Refusal>) -> u64
    requires { Small answer }
    ensures { result ≡ packed_block (block_meaning answer) }
{
    match answer {
        Ok(Some(found)) => found.block as u64 * 1099511627776 + pack(0, found.strip),
        Ok(None) => 0,
        Err(refusal) => pack(refusal.number(), refusal.needed()),
    }
}

// A result, or the number of the refusal.
fn answer_word(answer: Result<usize, Refusal>) -> u64
    requires { IfOk answer (λ n. n < 4294967296) }
    ensures { MatchResult answer (λ n. result ≡ word 0 n) (λ r. result ≡ word (number_of r) 0) }
{
    match answer {
        Ok(res) => pack(0, res),
        Err(refusal) => pack(refusal.number(), 0),
    }
}

// A refusal's number, or 0, above a result.
fn pack(number: u8, res: usize) -> u64
    requires { res < 4294967296 }
    ensures { result ≡ word number res }
{
    number as u64 * 4294967296 + res as u64
}
