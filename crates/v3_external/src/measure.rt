// The lengths of what this crate's functions write, wherever the LSA lies: `measure_x` for `push_x`.
ghost use Rattle.std.specs.Prelude.{◌≡◌, ℕ, ◌≤◌, length};
ghost use Rattle.format.specs.Strip.{encode};
ghost use Rattle.format.specs.V3.{external_optional, external_lsa3};
ghost use Rattle.body.specs.Answers.{measured_of};

use crate::External;
use body::Measured;
use strip_ids::kind::{IPV6_LENGTH, U8_LENGTH, U16_LENGTH, U32_LENGTH};
use strip_push::measure::measure_metric24;
use strip_put::Part;

// What an external has beside its metric before its optional parts: flags, and what follows them up to the prefix.
const EXTERNAL_LENGTH: usize = 4 * U8_LENGTH + 2 * U8_LENGTH + U16_LENGTH + IPV6_LENGTH;

pub fn measure_external_lsa(body: Part) -> Measured
    ensures { (o : ℕ) → result ≡ measured_of (external_lsa3 body.entry.bytes.now o) }
{
    let Some(external) = External::read(body) else {
        return Measured::Raw;
    };
    Measured::Decoded {
        length: EXTERNAL_LENGTH
            + measure_metric24(body.bytes, 1)
            + measure_external_optional(external),
        consumed: external.end,
    }
}

fn measure_external_optional(external: External) -> usize
    ensures by_index { (o n : ℕ) → result ≡ length (encode (external_optional external.entry.body.bytes.now o n)) }
    ensures upper_bound { result ≤ 64 }
{
    let forwarding = if external.forwarding { IPV6_LENGTH } else { 0 };
    let tag = if external.tag { U32_LENGTH } else { 0 };
    let reference = if external.reference { U32_LENGTH } else { 0 };
    forwarding + tag + reference
}
