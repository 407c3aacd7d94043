// A walk over a list of objects, whatever they are: measured, compared with the room, and only then written, in the outer array with
// the tail after it. The header list and the update are such lists.
#![tactic(auto)]

ghost use Rattle.std.specs.Prelude.{◌≤◌, length};
ghost use Rattle.format.specs.Strip.{encode};
ghost use Rattle.format.specs.Cut.{cut};
ghost use Rattle.format.specs.Walks.{max_data, outer};
ghost use Rattle.strip_put.specs.Writer.{HasRoom, Writes};
ghost use Rattle.walk_answer.specs.Answers.{Promised};
ghost use Rattle.walk_list.specs.Listed.{listed};
ghost use Rattle.walk_list.specs.Object.{object};

use body::list::{Record, measure_list, push_list};
use body::{measure_unparsed, push_unparsed};
pub use object::{Object, ObjectRecord};
use refusal::Refusal;
use strip_ids::OUTER;
use strip_put::{Part, Writer};
use walk_answer::{Answer, check_room, unparsed_id};

mod object;

// The walk of a call that is not refused but for its room: at most as many objects as the count, from the place `first` on.
pub fn walk_list<O: Object>(
    version: u8,
    data: Part,
    first: usize,
    count: u32,
    strip: &mut [u8],
) -> Result<Answer, Refusal>
    requires first_in_bounds { first ≤ length «data».bytes.now }
    requires data_len_bound { length «data».bytes.now ≤ max_data }
    ensures { Promised (listed version (object O.ID O.inside «data».entry.bytes.now «data».entry.offset) «data».entry.bytes.now «data».entry.offset first (cut O.rule «data».entry.bytes.now count first)) strip.old result strip.new }
{
    let list = measure_list::<ObjectRecord<O>>(data, first, count);
    let length = list.length + measure_unparsed(data.bytes, list.end);
    check_room(strip, length)?;
    push_outer::<ObjectRecord<O>>(&mut Writer::new(strip, 0), version, data, first, count);
    Ok(Answer {
        length,
        records: list.count,
        tail: data.len() - list.end,
    })
}

// The outer array, and the tail.
fn push_outer<R: Record>(strip: &mut Writer, version: u8, data: Part, first: usize, count: u32)
    requires room { HasRoom strip.old (length (encode (outer version (R.entries «data».bytes.now «data».offset) «data».bytes.now «data».offset first (cut R.rule «data».bytes.now count first)))) }
    requires first_in_bounds { first ≤ length «data».bytes.now }
    ensures { Writes strip.old (encode (outer version (R.entries «data».entry.bytes.now «data».entry.offset) «data».entry.bytes.now «data».entry.offset first (cut R.rule «data».entry.bytes.now count first))) strip.new }
{
    let end = push_list::<R>(strip, OUTER, data, first, count);
    push_unparsed(strip, unparsed_id(version), data, end);
}
