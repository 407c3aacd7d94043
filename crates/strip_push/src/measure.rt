// The length of the one entry that has no fixed length: `measure_metric24` for `push_metric24_at`, wherever the metric is shown.
ghost use Rattle.std.specs.Prelude.{◌≡◌, ℕ, ◌+◌, ◌≤◌, length};
ghost use Rattle.format.specs.Strip.{code, metric24_at};

use strip_ids::kind::{U32_LENGTH, UNREACHABLE_LENGTH};
use util::read_metric24;

pub fn measure_metric24(body: &[u8], p: usize) -> usize
    requires le_p { 1 ≤ p }
    requires p_in_bounds { p + 3 ≤ length body.now }
    ensures by_index { (i o : ℕ) → result ≡ length (code (metric24_at i body.now o p)) }
    ensures upper_bound { result ≤ 14 }
{
    match read_metric24(body, p) {
        Some(_) => U32_LENGTH,
        None => UNREACHABLE_LENGTH,
    }
}
