// The length of what `push_router_lsa` writes, wherever the LSA lies.
ghost use Rattle.std.specs.Prelude.{◌≡◌, ℕ};
ghost use Rattle.format.specs.V2.{router_lsa2};
ghost use Rattle.body.specs.Answers.{measured_of};

use crate::Link;
use body::list::measure_list;
use body::{Measured, ROUTER_FLAGS_LENGTH};
use strip_ids::kind::U16_LENGTH;
use strip_put::Part;
use util::read_be_u16;

pub fn measure_router_lsa(body: Part) -> Measured
    ensures { (o : ℕ) → result ≡ measured_of (router_lsa2 body.entry.bytes.now o) }
{
    if body.len() < 4 {
        return Measured::Raw;
    }
    let links = measure_list::<Link>(body, 4, u32::from(read_be_u16(body.bytes, 2)));
    Measured::Decoded {
        length: ROUTER_FLAGS_LENGTH + U16_LENGTH + links.length,
        consumed: links.end,
    }
}
