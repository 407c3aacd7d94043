// Ages, and how many LSAs and unused rows there are.
#![tactic(auto)]

ghost use Rattle.std.specs.Prelude.{length, map};
ghost use Rattle.format.specs.Book as book;
ghost use Rattle.book.specs.Rows.{meaning};
ghost use Rattle.book.specs.Lsas.{left_of};
ghost use Rattle.book.specs.Ages.{CountedUnless, is_used_old};

use crate::Row;
use crate::lsas::Lsas;

// How many LSAs there are, if no age is above MaxAge.
pub fn count_lsas(lsas: Lsas) -> Option<usize>
    ensures { CountedUnless book.is_old (λ rs. length rs) (left_of lsas.entry) result }
{
    let mut count = 0;
    for lsa in lsas {
        if lsa.is_old() {
            return None;
        }
        count += 1;
    }
    Some(count)
}

// How many rows are unused, if the age of no used row is above MaxAge.
pub fn count_free(rows: &[Row]) -> Option<usize>
    ensures { CountedUnless is_used_old book.free_rows (map meaning rows.now) result }
{
    let mut count = 0;
    for row in rows {
        if row.is_used_old() {
            return None;
        }
        if row.is_free() {
            count += 1;
        }
    }
    Some(count)
}
