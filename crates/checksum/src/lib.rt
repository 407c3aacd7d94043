// The LS checksum (RFC 2328 12.1.7): whether that of an LSA is right, and its making.
#![tactic(auto)]

ghost use Rattle.std.specs.Prelude.{◌≡◌, ◌+◌, ◌*◌, ◌≤◌, ◌<◌, [], ◌∷◌, length};
ghost use Rattle.format.specs.Header.{header_size};
ghost use Rattle.format.specs.Checksum.{max_length, running, residues, sums, is_good, octet_of, check, making, made_lsa, first_octet, second_octet};
ghost use Rattle.checksum.specs.Answers.{check_meaning, making_meaning};

use header::LsaHeader;
use refusal::Refusal;

// As many bytes as the length of an LSA can say.
const MAX_LENGTH: usize = 65535;

// Bytes that are taken for an LSA: a header's at least, and no more than the length of an LSA can say.
#[derive(Clone, Copy, PartialEq, Eq, Debug)]
struct Lsa<'a> {
    bytes: &'a [u8],
    ghost least: { header_size ≤ length bytes.now },
    ghost most: { length bytes.now ≤ max_length },
}

// C0 and C1 of annex B of RFC 905, modulo 255.
#[derive(Clone, Copy, PartialEq, Eq, Debug)]
struct Sums {
    c0: u64,
    c1: u64,
    ghost c0_small: { c0 < 255 },
    ghost c1_small: { c1 < 255 },
}

// Whether the checksum is right.
#[tactic(auto, unfolding(format::specs::Checksum::check))]
pub fn check_checksum(lsa: &[u8]) -> Result<bool, Refusal>
    ensures { check_meaning result ≡ check lsa.now }
{
    Ok(Lsa::try_from(lsa)?.is_good())
}

// Writes the checksum into the LSA: what was made.
#[tactic(auto, unfolding(format::specs::Checksum::making))]
pub fn make_checksum(lsa: &mut [u8]) -> Result<u16, Refusal>
    ensures value { making_meaning result ≡ making lsa.old }
    ensures lsa_after { lsa.new ≡ made_lsa (making lsa.old) lsa.old }
{
    let field = Lsa::try_from(&lsa[..])?.checksum();
    lsa[LsaHeader::CHECKSUM_AT..LsaHeader::LENGTH_AT].copy_from_slice(&field);
    Ok(u16::from_be_bytes(field))
}

impl<'a> TryFrom<&'a [u8]> for Lsa<'a> {
    type Error = Refusal;

    ghost use Rattle.checksum.specs.Lsa.{Takes};

    ghost try_from_gives = { Takes };

    fn try_from(bytes: &'a [u8]) -> Result<Lsa<'a>, Refusal> {
        if (LsaHeader::SIZE..=MAX_LENGTH).contains(&bytes.len()) {
            Ok(Lsa { bytes })
        } else {
            Err(Refusal::NoLsa)
        }
    }
}

impl<'a> Lsa<'a> {
    // The two octets of the checksum that an LSA should have. The sums are those of the LSA as it is, so what its field adds to
    // them is taken off.
    fn checksum(self) -> [u8; 2]
        ensures { result ≡ first_octet self.entry.bytes.now ∷ second_octet self.entry.bytes.now ∷ [] }
    {
        let lsa = self.bytes;
        let s = sums_of(lsa);
        let n = lsa.len();
        let x = octet(lsa[LsaHeader::CHECKSUM_AT], n - 17, s.c0, 255 - s.c1);
        let y = octet(lsa[LsaHeader::CHECKSUM_AT + 1], n - 16, 255 - s.c0, s.c1);
        [x, y]
    }

    #[tactic(auto, unfolding(format::specs::Checksum::is_good))]
    fn is_good(self) -> bool
        ensures { result ≡ is_good self.entry.bytes.now }
    {
        let lsa = self.bytes;
        let s = sums_of(lsa);
        s.c0 == 0
            && s.c1 == 0
            && (lsa[LsaHeader::CHECKSUM_AT] != 0 || lsa[LsaHeader::CHECKSUM_AT + 1] != 0)
    }
}

// The sums of all bytes but the age, by words of four bytes. 256 is 1 modulo 255: so a word is the sum of its bytes, its upper half
// that of the last two, and its second and fourth byte in their places the sum of these. C1 gains four times the C0 that comes
// after the word, less twice the upper half and these; 254 is - 1. Nothing is divided by 255 before the end, since the sums of
// 65,535 bytes fit. A word's first byte is its lowest: the compiler makes one load of it, which it does not if it is the highest.
#[tactic(auto, using(crate::proofs::Words::word_more, format::proofs::Checksum::begins))]
fn sums_of(lsa: &[u8]) -> Sums
    requires in_bounds { header_size ≤ length lsa.now }
    requires lsa_len_bound { length lsa.now ≤ max_length }
    ensures { sums lsa.now ≡ record { c0 = result.c0; c1 = result.c1 } }
{
    let mut c0 = u64::from(lsa[2]) + u64::from(lsa[3]);
    let start = u64::from(lsa[2]) + c0;
    let mut after = 0;
    let mut halves = 0;
    let mut odd = 0;
    let (words, last) = lsa[4..].as_chunks();
    for bytes in words {
        let word = u64::from(u32::from_le_bytes(*bytes));
        odd += word / 256 % 256 + word / 16777216 * 65536;
        halves += word / 65536;
        c0 += word;
        after += c0;
    }
    with_rest(last, c0, after * 4 + (halves * 2 + odd) * 254 + start)
}

// The sums with the last bytes, fewer than a word's.
#[tactic(auto, using(format::proofs::Checksum::by_octet, format::proofs::Checksum::ends))]
fn with_rest(last: &[u8], first: u64, second: u64) -> Sums
    requires last_len_bound { length last.now < 4 }
    requires first_bound { first ≤ 140737488355328 }
    requires second_bound { second ≤ 9223372036854775808 }
    ensures { running (residues first second) last.now ≡ record { c0 = result.c0; c1 = result.c1 } }
{
    let mut c0 = first;
    let mut c1 = second;
    for &octet in last {
        c0 += u64::from(octet);
        c1 += c0;
    }
    Sums {
        c0: c0 % 255,
        c1: c1 % 255,
    }
}

// An octet of the field, by what it was and the sums: a residue modulo 255, which is never written as zero.
#[tactic(auto, unfolding(format::specs::Checksum::octet_of))]
fn octet(was: u8, times: usize, first: u64, second: u64) -> u8
    requires times_bound { times ≤ 65535 }
    requires first_bound { first ≤ 255 }
    requires second_bound { second ≤ 255 }
    ensures { result ≡ octet_of (was + (times * first + second)) }
{
    let residue = (u64::from(was) + (times as u64 * first + second)) % 255;
    if residue == 0 { 255 } else { residue as u8 }
}
