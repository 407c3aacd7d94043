// The lengths of what this crate's functions write, wherever the LSA lies: `measure_x` for `push_x`.
ghost use Rattle.std.specs.Prelude.{◌≡◌, ℕ};
ghost use Rattle.format.specs.V3.{inter_area_prefix_lsa, link_lsa, intra_area_prefix_lsa};
ghost use Rattle.body.specs.Answers.{measured_of};

use body::Measured;
use strip_ids::kind::{IPV4_LENGTH, IPV6_LENGTH, U8_LENGTH, U16_LENGTH, U32_LENGTH};
use strip_push::measure::measure_metric24;
use strip_put::Part;
use util::{read_be_u16, read_be_u32};
use v3_prefix::fixed_prefix_fits;
use v3_prefix::measure::measure_prefixes;

// What an Inter-Area-Prefix-LSA has beside its metric, a Link-LSA before its prefixes, and an Intra-Area-Prefix-LSA before
// them.
const INTER_AREA_PREFIX_LENGTH: usize = 2 * U8_LENGTH + IPV6_LENGTH;

const LINK_LENGTH: usize = U8_LENGTH + OPTIONS_LENGTH + IPV6_LENGTH + U32_LENGTH;

const INTRA_AREA_PREFIX_LENGTH: usize = U32_LENGTH + REFERENCES_LENGTH;

// What `push_options` and `push_references` write.
pub const OPTIONS_LENGTH: usize = U32_LENGTH;

pub const REFERENCES_LENGTH: usize = U16_LENGTH + U32_LENGTH + IPV4_LENGTH;

pub fn measure_inter_area_prefix_lsa(body: Part) -> Measured
    ensures { (o : ℕ) → result ≡ measured_of (inter_area_prefix_lsa body.entry.bytes.now o) }
{
    let Some(n) = fixed_prefix_fits(body.bytes) else {
        return Measured::Raw;
    };
    Measured::Decoded {
        length: INTER_AREA_PREFIX_LENGTH + measure_metric24(body.bytes, 1),
        consumed: 8 + n,
    }
}

pub fn measure_link_lsa(body: Part) -> Measured
    ensures { (o : ℕ) → result ≡ measured_of (link_lsa body.entry.bytes.now o) }
{
    if body.len() < 24 {
        return Measured::Raw;
    }
    let count = read_be_u32(body.bytes, 20);
    let prefixes = measure_prefixes::<false>(body, 24, count);
    Measured::Decoded {
        length: LINK_LENGTH + prefixes.length,
        consumed: prefixes.end,
    }
}

pub fn measure_intra_area_prefix_lsa(body: Part) -> Measured
    ensures { (o : ℕ) → result ≡ measured_of (intra_area_prefix_lsa body.entry.bytes.now o) }
{
    if body.len() < 12 {
        return Measured::Raw;
    }
    let count = u32::from(read_be_u16(body.bytes, 0));
    let prefixes = measure_prefixes::<true>(body, 12, count);
    Measured::Decoded {
        length: INTRA_AREA_PREFIX_LENGTH + prefixes.length,
        consumed: prefixes.end,
    }
}
