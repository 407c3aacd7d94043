// A whole LSA, whatever its version: the header, the body, and what is left of that, pushed and measured.
#![tactic(auto, using(body::proofs::Laws::length_lsa), unfolding(crate::specs::Whole::whole))]

ghost use Rattle.std.specs.Prelude.{◌≡◌, ℕ, ◌+◌, ◌*◌, ◌≤◌, List, length, drop};
ghost use Rattle.format.specs.Body as format;
ghost use Rattle.format.specs.Header.{header_size};
ghost use Rattle.format.specs.Body.{own_of, rest_of};
ghost use Rattle.format.specs.Strip.{Entry, direct, encode};
ghost use Rattle.body.specs.Answers.{Pushed, bytes_of, measured_of};
ghost use Rattle.lsa.specs.Whole.{tail, whole};
ghost use Rattle.strip_put.specs.Writer.{HasRoom, Writes};

use body::{Body, Lsa, Measured, bytes_from, measure_unparsed, push_unparsed};
use header::{LsaHeader, LsaPart};
use strip_put::Writer;

// What is a version's own: an LSA's header and body, and the ids of a raw body and of bytes that stay unparsed.
pub trait Version {
    const BODY: u8;

    ghost BODY: { ℕ };

    const UNPARSED: u8;

    ghost UNPARSED: { ℕ };

    ghost header: { List ℕ → ℕ → List Entry };

    // The body of an LSA, by the LSA's bytes and place.
    ghost body: { List ℕ → ℕ → format.Body };

    // Answers how many entries that is, those inside containers left out.
    fn push_header(strip: &mut Writer, lsa: LsaPart) -> u8
        requires { HasRoom strip.old (length (encode (header lsa.part.bytes.now lsa.part.offset))) }
        ensures wrote { Writes strip.old (encode (header lsa.entry.part.bytes.now lsa.entry.part.offset)) strip.new }
        ensures entries_value { result ≡ direct 0 (header lsa.entry.part.bytes.now lsa.entry.part.offset) };

    fn push_body(strip: &mut Writer, lsa: LsaPart) -> Body
        requires { HasRoom strip.old (length (bytes_of (body lsa.part.bytes.now lsa.part.offset))) }
        ensures { Pushed (body lsa.entry.part.bytes.now lsa.entry.part.offset) strip.old strip.new result };

    // The lengths of what these write, wherever the LSA lies.
    fn measure_header(lsa: LsaPart) -> usize
        ensures { (o : ℕ) → result ≡ length (encode (header lsa.entry.part.bytes.now o)) };

    fn measure_body(lsa: LsaPart) -> Measured
        ensures { (o : ℕ) → result ≡ measured_of (body lsa.entry.part.bytes.now o) };

    // No LSA takes more than nineteen bytes of a strip for each of its own.
    ghost bound: { (d : List ℕ) (o : ℕ) → header_size ≤ length d → length (encode (whole header BODY UNPARSED body d o)) ≤ 19 * length d };

    // The entries of an LSA are those of its header, its body's own, and what is left of that.
    ghost parts: { (d : List ℕ) (o : ℕ) → direct 0 (whole header BODY UNPARSED body d o) ≡ direct 0 (header d o) + (direct 0 (own_of (body d o)) + direct 0 (rest_of BODY UNPARSED (body d o) (drop header_size d) (o + header_size))) };
}

// Answers how many entries that is, those inside containers left out.
pub fn push_lsa<V: Version>(strip: &mut Writer, lsa: LsaPart) -> u32
    requires { HasRoom strip.old (length (encode (whole V.header V.BODY V.UNPARSED V.body lsa.part.bytes.now lsa.part.offset))) }
    ensures wrote { Writes strip.old (encode (whole V.header V.BODY V.UNPARSED V.body lsa.entry.part.bytes.now lsa.entry.part.offset)) strip.new }
    ensures entries_value { result ≡ direct 0 (whole V.header V.BODY V.UNPARSED V.body lsa.entry.part.bytes.now lsa.entry.part.offset) }
{
    let header = V::push_header(strip, lsa);
    let body = lsa.part.rest(LsaHeader::SIZE);
    match V::push_body(strip, lsa) {
        Body::Decoded { entries, consumed } => {
            let rest = push_unparsed(strip, V::UNPARSED, body, consumed);
            u32::from(header) + u32::from(entries) + u32::from(rest)
        }
        Body::Raw => {
            let rest = push_unparsed(strip, V::BODY, body, 0);
            u32::from(header) + u32::from(rest)
        }
    }
}

// The length of what `push_lsa` writes, wherever the LSA lies, and how many of its bytes stay unparsed.
pub fn measure_lsa<V: Version>(lsa: LsaPart) -> Lsa
    ensures by_index { (o : ℕ) → result.length ≡ length (encode (whole V.header V.BODY V.UNPARSED V.body lsa.entry.part.bytes.now o)) }
    ensures tail_value { result.tail ≡ tail V.body lsa.entry.part.bytes.now }
    ensures upper_bound { result.length ≤ 19 * length lsa.entry.part.bytes.now }
{
    let header = V::measure_header(lsa);
    let body = lsa.part.rest(LsaHeader::SIZE);
    match V::measure_body(lsa) {
        Measured::Decoded { length, consumed } => Lsa {
            length: header + (length + measure_unparsed(body.bytes, consumed)),
            tail: bytes_from(body.bytes, consumed),
        },
        Measured::Raw => Lsa {
            length: header + measure_unparsed(body.bytes, 0),
            tail: 0,
        },
    }
}
