// Lists of entries end to end, of any kind that says how long an entry is and what it is in a strip.
ghost use Rattle.std.specs.Prelude.{◌≡◌, ℕ, ◌+◌, ◌*◌, ◌≤◌, ◌<◌, List, length};
ghost use Rattle.std.proofs.Math.Option.{some};
ghost use mathlib.Core.List.{flat_map};
ghost use Rattle.format.specs.Inside.{Counts};
ghost use Rattle.format.specs.Strip.{Entry, encode};
ghost use Rattle.format.specs.Cut.{Rule, Span, cut, after, fixed_rule};
ghost use Rattle.format.specs.Body.{listing, listing_if_any};
ghost use Rattle.body.specs.Answers.{measured_of};
ghost use Rattle.body.specs.List.{followed, span};
ghost use Rattle.strip_put.specs.Writer.{HasRoom, Writes};
ghost use Rattle.util.specs.Answers.{option_of};

use crate::Measured;
use strip_ids::kind::{CONTAINER_LENGTH, OPEN_LENGTH};
use strip_push::{begin_container, end_container, finish_container};
use strip_put::{Part, Writer};

// Entries whose lengths differ.
pub trait Record {
    // How long the entry is that stands at a place of a body, if one does.
    ghost rule: { Rule };

    // What an entry is in a strip, by the body, its offset and where the entry lies.
    ghost entries: { List ℕ → ℕ → Span → List Entry };

    fn fits(body: &[u8], p: usize) -> Option<usize>
        requires { p ≤ length body.now }
        ensures { result ≡ option_of (rule body.now p) };

    fn push(strip: &mut Writer, body: Part, p: usize, n: usize)
        requires room { HasRoom strip.old (length (encode (entries body.bytes.now body.offset (span p n)))) }
        requires stands { rule body.bytes.now p ≡ some n }
        ensures { Writes strip.old (encode (entries body.entry.bytes.now body.entry.offset (span p n))) strip.new };

    // The length of what `push` writes, wherever the body lies.
    fn measure(body: Part, p: usize, n: usize) -> usize
        requires { rule body.bytes.now p ≡ some n }
        ensures by_index { (o : ℕ) → result ≡ length (encode (entries body.entry.bytes.now o (span p n))) }
        ensures upper_bound { result ≤ 32 * n };

    // An entry that stands lies in the body.
    ghost within: { (b : List ℕ) (p n : ℕ) → rule b p ≡ some n → p + n ≤ length b };

    // It is one entry of a strip, a container or a field.
    ghost one: { (b : List ℕ) (offset : ℕ) (s : Span) → Counts 1 (entries b offset s) };
}

// Entries of one length.
pub trait Item {
    const SIZE: usize;

    ghost SIZE: { ℕ };

    ghost entries: { List ℕ → ℕ → Span → List Entry };

    fn push(strip: &mut Writer, body: Part, p: usize)
        requires room { HasRoom strip.old (length (encode (entries body.bytes.now body.offset (span p SIZE)))) }
        requires in_bounds { p + SIZE ≤ length body.bytes.now }
        ensures { Writes strip.old (encode (entries body.entry.bytes.now body.entry.offset (span p SIZE))) strip.new };

    fn measure(body: Part, p: usize) -> usize
        requires { p + SIZE ≤ length body.bytes.now }
        ensures by_index { (o : ℕ) → result ≡ length (encode (entries body.entry.bytes.now o (span p SIZE))) }
        ensures upper_bound { result ≤ 256 };

    ghost size_nonzero: { 0 < SIZE };

    ghost one: { (b : List ℕ) (offset : ℕ) (s : Span) → Counts 1 (entries b offset s) };
}

// A list that is pushed: the number of its entries, and where in the body they end.
#[derive(Clone, Copy, PartialEq, Eq, Debug)]
pub struct PushedList {
    pub count: u32,
    pub end: usize,
}

// A list that is measured: the length of its entries in a strip, their number, and where in the body they end.
#[derive(Clone, Copy, PartialEq, Eq, Debug)]
pub struct MeasuredList {
    pub length: usize,
    pub count: usize,
    pub end: usize,
}

// The entries from a place on, at most as many as the count. The list ends at the first byte of an entry that does not fit.
pub fn push_records<R: Record>(
    strip: &mut Writer,
    body: Part,
    first: usize,
    count: u32,
) -> PushedList
    requires room { HasRoom strip.old (length (encode (flat_map (R.entries body.bytes.now body.offset) (cut R.rule body.bytes.now count first)))) }
    requires first_in_bounds { first ≤ length body.bytes.now }
    ensures wrote { Writes strip.old (encode (flat_map (R.entries body.entry.bytes.now body.entry.offset) (cut R.rule body.entry.bytes.now count first))) strip.new }
    ensures count_value { result.count ≡ length (cut R.rule body.entry.bytes.now count first) }
    ensures end_value { result.end ≡ after first (cut R.rule body.entry.bytes.now count first) }
    ensures end_in_bounds { (first ≤ result.end) × (result.end ≤ length body.entry.bytes.now) }
{
    let mut pos = first;
    let mut left = count;
    let end = loop {
        if left == 0 {
            break pos;
        }
        let Some(n) = R::fits(body.bytes, pos) else {
            break pos;
        };
        R::push(strip, body, pos, n);
        pos += n;
        left -= 1;
    };
    PushedList {
        count: count - left,
        end,
    }
}

pub fn measure_records<R: Record>(body: Part, first: usize, count: u32) -> MeasuredList
    requires { first ≤ length body.bytes.now }
    ensures by_index { (o : ℕ) → result.length ≡ length (encode (flat_map (R.entries body.entry.bytes.now o) (cut R.rule body.entry.bytes.now count first))) }
    ensures count_value { result.count ≡ length (cut R.rule body.entry.bytes.now count first) }
    ensures end_value { result.end ≡ after first (cut R.rule body.entry.bytes.now count first) }
    ensures end_in_bounds { result.end ≤ length body.entry.bytes.now }
    ensures length_bound { result.length ≤ 32 * length body.entry.bytes.now }
{
    let mut list = MeasuredList {
        length: 0,
        count: 0,
        end: first,
    };
    for _ in 0..count {
        let Some(n) = R::fits(body.bytes, list.end) else {
            break;
        };
        list.length += R::measure(body, list.end, n);
        list.count += 1;
        list.end += n;
    }
    list
}

// The array of such a list. How many entries it has and where it ends is known once they are pushed, so it is opened after that.
pub fn push_list<R: Record>(
    strip: &mut Writer,
    id: u8,
    body: Part,
    first: usize,
    count: u32,
) -> usize
    requires room { HasRoom strip.old (length (encode (listing id (R.entries body.bytes.now body.offset) body.offset first (cut R.rule body.bytes.now count first)))) }
    requires first_in_bounds { first ≤ length body.bytes.now }
    ensures wrote { Writes strip.old (encode (listing id (R.entries body.entry.bytes.now body.entry.offset) body.entry.offset first (cut R.rule body.entry.bytes.now count first))) strip.new }
    ensures end_value { result ≡ after first (cut R.rule body.entry.bytes.now count first) }
{
    let opening = strip.at;
    strip.at += OPEN_LENGTH;
    let list = push_records::<R>(strip, body, first, count);
    let range = body.range(first, list.end - first);
    finish_container(strip, opening, id, range, list.count);
    list.end
}

// The length of such an array, under any id, and the rest as of its list.
pub fn measure_list<R: Record>(body: Part, first: usize, count: u32) -> MeasuredList
    requires { first ≤ length body.bytes.now }
    ensures by_index { (id o : ℕ) → result.length ≡ length (encode (listing id (R.entries body.entry.bytes.now o) o first (cut R.rule body.entry.bytes.now count first))) }
    ensures count_value { result.count ≡ length (cut R.rule body.entry.bytes.now count first) }
    ensures end_value { result.end ≡ after first (cut R.rule body.entry.bytes.now count first) }
    ensures end_in_bounds { result.end ≤ length body.entry.bytes.now }
    ensures length_bound { result.length ≤ 15 + 32 * length body.entry.bytes.now }
{
    let list = measure_records::<R>(body, first, count);
    MeasuredList {
        length: CONTAINER_LENGTH + list.length,
        ..list
    }
}

// As many entries as the count from a place on.
pub fn push_items<I: Item>(strip: &mut Writer, body: Part, first: usize, count: usize)
    requires room { HasRoom strip.old (length (encode (flat_map (I.entries body.bytes.now body.offset) (cut (fixed_rule I.SIZE) body.bytes.now count first)))) }
    requires in_bounds { first + count * I.SIZE ≤ length body.bytes.now }
    ensures { Writes strip.old (encode (flat_map (I.entries body.entry.bytes.now body.entry.offset) (cut (fixed_rule I.SIZE) body.entry.bytes.now count first))) strip.new }
{
    for i in 0..count {
        I::push(strip, body, first + i * I::SIZE);
    }
}

pub fn measure_items<I: Item>(body: Part, first: usize, count: usize) -> usize
    requires { first + count * I.SIZE ≤ length body.bytes.now }
    ensures by_index { (o : ℕ) → result ≡ length (encode (flat_map (I.entries body.entry.bytes.now o) (cut (fixed_rule I.SIZE) body.entry.bytes.now count first))) }
    ensures upper_bound { result ≤ count * 256 }
{
    let mut length = 0;
    for i in 0..count {
        length += I::measure(body, first + i * I::SIZE);
    }
    length
}

// The array of such a list. Answers the place where it ends.
pub fn push_array<I: Item>(
    strip: &mut Writer,
    id: u8,
    body: Part,
    first: usize,
    count: usize,
) -> usize
    requires room { HasRoom strip.old (length (encode (listing id (I.entries body.bytes.now body.offset) body.offset first (cut (fixed_rule I.SIZE) body.bytes.now count first)))) }
    requires in_bounds { first + count * I.SIZE ≤ length body.bytes.now }
    ensures wrote { Writes strip.old (encode (listing id (I.entries body.entry.bytes.now body.entry.offset) body.entry.offset first (cut (fixed_rule I.SIZE) body.entry.bytes.now count first))) strip.new }
    ensures end_value { result ≡ after first (cut (fixed_rule I.SIZE) body.entry.bytes.now count first) }
{
    let size = count * I::SIZE;
    begin_container(strip, id, body.range(first, size), count as u32);
    push_items::<I>(strip, body, first, count);
    end_container(strip);
    first + size
}

// The same, not opened where there is no entry.
pub fn push_array_if_any<I: Item>(
    strip: &mut Writer,
    id: u8,
    body: Part,
    first: usize,
    count: usize,
) -> usize
    requires room { HasRoom strip.old (length (encode (listing_if_any id (I.entries body.bytes.now body.offset) body.offset first (cut (fixed_rule I.SIZE) body.bytes.now count first)))) }
    requires in_bounds { first + count * I.SIZE ≤ length body.bytes.now }
    ensures wrote { Writes strip.old (encode (listing_if_any id (I.entries body.entry.bytes.now body.entry.offset) body.entry.offset first (cut (fixed_rule I.SIZE) body.entry.bytes.now count first))) strip.new }
    ensures end_value { result ≡ after first (cut (fixed_rule I.SIZE) body.entry.bytes.now count first) }
{
    if count == 0 {
        return first;
    }
    push_array::<I>(strip, id, body, first, count)
}

pub fn measure_array<I: Item>(body: Part, first: usize, count: usize) -> MeasuredList
    requires { first + count * I.SIZE ≤ length body.bytes.now }
    ensures by_index { (id o : ℕ) → result.length ≡ length (encode (listing id (I.entries body.entry.bytes.now o) o first (cut (fixed_rule I.SIZE) body.entry.bytes.now count first))) }
    ensures count_value { result.count ≡ count }
    ensures end_value { result.end ≡ after first (cut (fixed_rule I.SIZE) body.entry.bytes.now count first) }
    ensures end_in_bounds { result.end ≤ length body.entry.bytes.now }
    ensures upper_bound { result.length ≤ 15 + count * 256 }
{
    MeasuredList {
        length: CONTAINER_LENGTH + measure_items::<I>(body, first, count),
        count,
        end: first + count * I::SIZE,
    }
}

pub fn measure_array_if_any<I: Item>(body: Part, first: usize, count: usize) -> MeasuredList
    requires { first + count * I.SIZE ≤ length body.bytes.now }
    ensures by_index { (id o : ℕ) → result.length ≡ length (encode (listing_if_any id (I.entries body.entry.bytes.now o) o first (cut (fixed_rule I.SIZE) body.entry.bytes.now count first))) }
    ensures count_value { result.count ≡ count }
    ensures end_value { result.end ≡ after first (cut (fixed_rule I.SIZE) body.entry.bytes.now count first) }
    ensures end_in_bounds { result.end ≤ length body.entry.bytes.now }
    ensures upper_bound { result.length ≤ 15 + count * 256 }
{
    if count == 0 {
        return MeasuredList {
            length: 0,
            count: 0,
            end: first,
        };
    }
    measure_array::<I>(body, first, count)
}

// A body of a fixed part whose entries take so much in a strip, and then an array of as many entries as it holds.
pub fn measure_whole<I: Item>(body: Part, first: usize, fixed: usize) -> Measured
    requires { fixed < 65536 }
    ensures { (id o : ℕ) (es : List Entry) → length (encode es) ≡ fixed → result ≡ measured_of (followed first es id I.SIZE (I.entries body.entry.bytes.now o) body.entry.bytes.now o) }
{
    if body.len() < first {
        return Measured::Raw;
    }
    let array = measure_array::<I>(body, first, (body.len() - first) / I::SIZE);
    Measured::Decoded {
        length: fixed + array.length,
        consumed: array.end,
    }
}
