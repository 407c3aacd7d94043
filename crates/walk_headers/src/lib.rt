// common.rs, `push_lsa_headers`: the walk over a list of LSA headers, as Database Description and Link State Acknowledgment
// packets have it.
#![tactic(auto, unfolding(format::specs::Cut::standing))]

ghost use Rattle.std.proofs.Math.Option.{some};
ghost use Rattle.format.specs.Cut.{fixed_rule};
ghost use Rattle.format.specs.Header.{header_size};
ghost use Rattle.format.specs.Walks.{header_entries, headers_of};
ghost use Rattle.format.proofs.Inside.{counts_nested};
ghost use Rattle.format.proofs.NestedLsa.{nested_header};
ghost use Rattle.format.proofs.Rules.{inside};
ghost use Rattle.walk_answer.specs.Answers.{Promised};

use header::{LsaHeader, LsaPart, v2, v3};
use refusal::Refusal;
use strip_ids::HEADER;
use strip_put::{Part, Writer};
use walk_answer::{Answer, check_call};
use walk_list::{Object, walk_list};

pub fn push_lsa_headers(
    version: u8,
    data: &[u8],
    offset: u64,
    strip: &mut [u8],
) -> Result<Answer, Refusal>
    ensures { Promised (headers_of version «data».now offset) strip.old result strip.new }
{
    check_call(version, data, offset, 0)?;
    let count = (data.len() / LsaHeader::SIZE) as u32;
    let data = Part::new(data, offset as u32);
    if version == 2 {
        walk_list::<HeaderObject<2>>(2, data, 0, count, strip)
    } else {
        walk_list::<HeaderObject<3>>(3, data, 0, count, strip)
    }
}

// A header of this version.
struct HeaderObject<const VERSION: u8>;

impl<const VERSION: u8> Object for HeaderObject<VERSION> {
    const ID: u8 = HEADER;

    ghost ID = { 112 };

    ghost rule = { fixed_rule header_size };

    ghost inside = { header_entries VERSION };

    fn fits(body: &[u8], p: usize) -> Option<usize> {
        (LsaHeader::SIZE <= body.len() - p).then_some(LsaHeader::SIZE)
    }

    fn push(strip: &mut Writer, lsa: LsaPart) -> u32 {
        // A writer of its own: of one that was handed in, the compiler reads buffer and place again after every byte.
        let mut out = Writer::new(&mut *strip.buffer, strip.at);
        let entries = if VERSION == 2 {
            v2::push_lsa_header_fields(&mut out, lsa)
        } else {
            v3::push_lsa_header_fields(&mut out, lsa)
        };
        strip.at = out.at;
        u32::from(entries)
    }

    fn measure(lsa: LsaPart) -> usize {
        if VERSION == 2 {
            v2::measure_lsa_header_fields(lsa.part.bytes)
        } else {
            v3::measure_lsa_header_fields()
        }
    }

    ghost has_header = { λ b p n e. (inside header_size (λ c q. some header_size) b p n e).enough };

    ghost within = { λ b p n e. (inside header_size (λ c q. some header_size) b p n e).within };

    ghost counts = { λ b o. counts_nested (nested_header VERSION b o) };
}
