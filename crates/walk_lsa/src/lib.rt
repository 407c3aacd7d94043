// The walk over a single LSA, and the choice on the version for an LSA in an update.
#![tactic(auto)]

ghost use Rattle.std.specs.Prelude.{◌≡◌, ℕ, ◌*◌, ◌≤◌, length};
ghost use Rattle.format.specs.Strip.{direct, encode};
ghost use Rattle.format.specs.Walks.{lsa_entries, lsa_tail, lsa_of};
ghost use Rattle.strip_put.specs.Writer.{HasRoom, Writes};
ghost use Rattle.walk_answer.specs.Answers.{Promised};

use body::Lsa;
use header::{LsaHeader, LsaPart};
use refusal::Refusal;
use strip_put::{Part, Writer};
use walk_answer::{Answer, check_call, check_room};

pub fn push_lsa(version: u8, data: &[u8], offset: u64, strip: &mut [u8]) -> Result<Answer, Refusal>
    ensures { Promised (lsa_of version «data».now offset) strip.old result strip.new }
{
    check_call(version, data, offset, LsaHeader::SIZE)?;
    let lsa = LsaPart::new(Part::new(data, offset as u32));
    let measured = measure_lsa(version, lsa);
    check_room(strip, measured.length)?;
    push_lsa_fields(&mut Writer::new(strip, 0), version, lsa);
    Ok(Answer {
        length: measured.length,
        records: 1,
        tail: measured.tail,
    })
}

pub fn measure_lsa(version: u8, lsa: LsaPart) -> Lsa
    ensures by_index { (o : ℕ) → result.length ≡ length (encode (lsa_entries version lsa.entry.part.bytes.now o)) }
    ensures tail_value { result.tail ≡ lsa_tail version lsa.entry.part.bytes.now }
    ensures upper_bound { result.length ≤ 19 * length lsa.entry.part.bytes.now }
{
    if version == 2 {
        v2_lsa::measure::measure_lsa(lsa)
    } else {
        v3_lsa::measure::measure_lsa(lsa)
    }
}

// Answers how many entries that is, those inside containers left out.
pub fn push_lsa_fields(strip: &mut Writer, version: u8, lsa: LsaPart) -> u32
    requires { HasRoom strip.old (length (encode (lsa_entries version lsa.part.bytes.now lsa.part.offset))) }
    ensures wrote { Writes strip.old (encode (lsa_entries version lsa.entry.part.bytes.now lsa.entry.part.offset)) strip.new }
    ensures entries_value { result ≡ direct 0 (lsa_entries version lsa.entry.part.bytes.now lsa.entry.part.offset) }
{
    // A writer of its own: of one that was handed in, the compiler reads buffer and place again after every byte.
    let mut out = Writer::new(&mut *strip.buffer, strip.at);
    let entries = if version == 2 {
        v2_lsa::push_lsa(&mut out, lsa)
    } else {
        v3_lsa::push_lsa(&mut out, lsa)
    };
    strip.at = out.at;
    entries
}
