// An update's LSAs taken one after another.
#![tactic(auto)]

ghost use Rattle.std.specs.Prelude.{◌≡◌, ◌+◌, ◌≤◌, length};
ghost use Rattle.format.specs.Book.{take_all};
ghost use Rattle.book.specs.Lsas.{left_of};
ghost use Rattle.book.specs.Counts.{book_of, fresh};

use crate::Row;
use crate::lsas::Lsas;
use crate::take::{Change, take_one};

// How many rows were replaced, and how many added.
#[derive(Clone, Copy, PartialEq, Eq, Debug)]
pub struct Counts {
    pub replaced: usize,
    pub added: usize,
}

pub fn take_all(lsas: Lsas, rows: &mut [Row]) -> Counts
    ensures value { book_of rows.new result ≡ take_all (left_of lsas.entry) (fresh rows.old) }
    ensures most { result.replaced + result.added ≤ length (left_of lsas.entry) }
{
    let mut counts = Counts {
        replaced: 0,
        added: 0,
    };
    for row in lsas {
        match take_one(rows, row) {
            Change::Left => {}
            Change::Replaced => counts.replaced += 1,
            Change::Added => counts.added += 1,
        }
    }
    counts
}
