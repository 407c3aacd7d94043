// common.rs, `push_lsu_lsas`: the walk over the LSAs of a Link State Update (RFC 2328 A.3.5).
#![tactic(auto)]

ghost use Rattle.std.specs.Prelude.{◌+◌};
ghost use Rattle.std.proofs.Math.Option.{some};
ghost use Rattle.format.specs.Bytes.{be16_at};
ghost use Rattle.format.specs.Cut.{record_rule};
ghost use Rattle.format.specs.Walks.{lsa_entries, update_of};
ghost use Rattle.format.specs.Header.{header_size};
ghost use Rattle.format.proofs.Inside.{counts_nested};
ghost use Rattle.format.proofs.NestedLsa.{nested_lsa};
ghost use Rattle.format.proofs.Rules.{inside};
ghost use Rattle.walk_answer.specs.Answers.{Promised};

use header::{LsaHeader, LsaPart};
use refusal::Refusal;
use strip_ids::LSA;
use strip_put::{Part, Writer};
use util::declared_length;
use walk_answer::{Answer, FIRST_LSA, check_call};
use walk_list::{Object, walk_list};
use walk_lsa::{measure_lsa, push_lsa_fields};

pub fn push_lsu_lsas(
    version: u8,
    data: &[u8],
    count: u32,
    offset: u64,
    strip: &mut [u8],
) -> Result<Answer, Refusal>
    ensures { Promised (update_of version «data».now count offset) strip.old result strip.new }
{
    check_call(version, data, offset, FIRST_LSA)?;
    let data = Part::new(data, offset as u32);
    if version == 2 {
        walk_list::<LsaObject<2>>(2, data, FIRST_LSA, count, strip)
    } else {
        walk_list::<LsaObject<3>>(3, data, FIRST_LSA, count, strip)
    }
}

// An LSA of this version.
struct LsaObject<const VERSION: u8>;

impl<const VERSION: u8> Object for LsaObject<VERSION> {
    const ID: u8 = LSA;

    ghost ID = { 113 };

    ghost rule = { record_rule };

    ghost inside = { lsa_entries VERSION };

    // An LSA has its header at least, and the length that this declares.
    fn fits(body: &[u8], p: usize) -> Option<usize> {
        declared_length(body, p, LsaHeader::SIZE, LsaHeader::LENGTH_AT)
    }

    fn push(strip: &mut Writer, lsa: LsaPart) -> u32 {
        push_lsa_fields(strip, VERSION, lsa)
    }

    fn measure(lsa: LsaPart) -> usize {
        measure_lsa(VERSION, lsa).length
    }

    ghost has_header = { λ b p n e. (inside header_size (λ c q. some (be16_at c (q + 18))) b p n e).enough };

    ghost within = { λ b p n e. (inside header_size (λ c q. some (be16_at c (q + 18))) b p n e).within };

    ghost counts = { λ b o. counts_nested (nested_lsa VERSION b o) };
}
