// A whole update taken against a table, or refused before anything is written.
#![tactic(auto)]

ghost use Rattle.std.specs.Prelude.{◌≡◌, map};
ghost use Rattle.format.specs.Book.{row_refusal};
ghost use Rattle.book.specs.Rows.{meaning};
ghost use Rattle.book.specs.Lsas.{left_of};
ghost use Rattle.book.specs.Updates.{Updates};
ghost use Rattle.walk_answer.specs.Answers.{refusal_meaning};

use crate::Row;
use crate::ages::{count_free, count_lsas};
use crate::identities::{any_twice, more_new_than};
use crate::lsas::Lsas;
use crate::take_all::{Counts, take_all};
use refusal::Refusal;
use walk_answer::{FIRST_LSA, check_call};

pub fn take_update(
    version: u8,
    data: &[u8],
    count: u32,
    offset: u64,
    rows: &mut [Row],
) -> Result<Counts, Refusal>
    ensures { Updates version «data».now count offset rows.old result rows.new }
{
    check_call(version, data, offset, FIRST_LSA)?;
    let lsas = Lsas::new(version, data, count, FIRST_LSA);
    check_rows(lsas, rows)?;
    Ok(take_all(lsas, rows))
}

// The first refusal, if there is one, of LSAs taken against a table.
fn check_rows(lsas: Lsas, rows: &[Row]) -> Result<(), Refusal>
    ensures { refusal_meaning result ≡ row_refusal (left_of lsas.entry) (map meaning rows.now) }
{
    let Some(all) = count_lsas(lsas) else {
        return Err(Refusal::AgeTooLarge);
    };
    let Some(free) = count_free(rows) else {
        return Err(Refusal::AgeTooLarge);
    };
    if any_twice(rows) {
        return Err(Refusal::SharedIdentity);
    }
    if free < all && more_new_than(free, lsas, rows) {
        return Err(Refusal::NoFreeRow);
    }
    Ok(())
}
