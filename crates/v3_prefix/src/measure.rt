// The lengths of what this crate's functions write, wherever the LSA lies: `measure_x` for `push_x`.
ghost use Rattle.std.specs.Prelude.{◌≡◌, ℕ, ◌+◌, ◌*◌, ◌≤◌, length};
ghost use Rattle.format.specs.Body.{listing};
ghost use Rattle.format.specs.Cut.{cut, after, prefix_rule};
ghost use Rattle.format.specs.Strip.{encode};
ghost use Rattle.format.specs.V3.{prefix};

use crate::Prefix;
use body::list::{MeasuredList, measure_list};
use strip_put::Part;

pub fn measure_prefixes<const WITH_METRIC: bool>(
    body: Part,
    first: usize,
    count: u32,
) -> MeasuredList
    requires { first ≤ length body.bytes.now }
    ensures by_index { (o : ℕ) → result.length ≡ length (encode (listing 29 (prefix WITH_METRIC body.entry.bytes.now o) o first (cut prefix_rule body.entry.bytes.now count first))) }
    ensures end_value { result.end ≡ after first (cut prefix_rule body.entry.bytes.now count first) }
    ensures length_bound { result.length ≤ 15 + 32 * length body.entry.bytes.now }
{
    measure_list::<Prefix<WITH_METRIC>>(body, first, count)
}
