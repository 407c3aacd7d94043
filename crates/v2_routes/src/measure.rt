// The lengths of what `push_summary_lsa` and `push_external_lsa` write, wherever the LSA lies.
ghost use Rattle.std.specs.Prelude.{◌≡◌, ℕ, ◌+◌, ◌≤◌, ◌<◌, List, length};
ghost use Rattle.format.specs.Strip.{Entry, code, encode, metric24_at};
ghost use Rattle.format.specs.V2.{external_lsa2, summary_lsa};
ghost use Rattle.body.specs.Answers.{measured_of};
ghost use Rattle.v2_routes.specs.Route.{route};

use crate::{ExternalTosMetric, METRIC_AT, SummaryTosMetric};
use body::Measured;
use body::list::{Item, measure_array_if_any};
use strip_ids::kind::{IPV4_LENGTH, U8_LENGTH, U32_LENGTH};
use strip_push::measure::measure_metric24;
use strip_put::Part;

// What a Summary-LSA and an external LSA have beside their metric and their TOS metrics.
const SUMMARY_LENGTH: usize = IPV4_LENGTH;

const EXTERNAL_LENGTH: usize = 2 * IPV4_LENGTH + U8_LENGTH + U32_LENGTH;

pub fn measure_summary_lsa(body: Part) -> Measured
    ensures { (o : ℕ) → result ≡ measured_of (summary_lsa body.entry.bytes.now o) }
{
    measure_route::<SummaryTosMetric>(body, 8, SUMMARY_LENGTH)
}

pub fn measure_external_lsa(body: Part) -> Measured
    ensures { (o : ℕ) → result ≡ measured_of (external_lsa2 body.entry.bytes.now o) }
{
    measure_route::<ExternalTosMetric>(body, 16, EXTERNAL_LENGTH)
}

// A body of a fixed part, whose entries take so much beside the metric, and TOS metrics, as many as it holds.
fn measure_route<I: Item>(body: Part, first: usize, fixed: usize) -> Measured
    requires metric_in_fixed_part { 8 ≤ first }
    requires fixed_bound { fixed < 65536 }
    ensures { (o : ℕ) (es : List Entry) → length (encode es) ≡ fixed + length (code (metric24_at 19 body.entry.bytes.now o 5)) → result ≡ measured_of (route first es I.SIZE (I.entries body.entry.bytes.now o) body.entry.bytes.now o) }
{
    if body.len() < first {
        return Measured::Raw;
    }
    let count = (body.len() - first) / I::SIZE;
    let metrics = measure_array_if_any::<I>(body, first, count);
    Measured::Decoded {
        length: fixed + measure_metric24(body.bytes, METRIC_AT) + metrics.length,
        consumed: metrics.end,
    }
}
