// One LSA taken against a table.
#![tactic(auto)]

ghost use Rattle.std.specs.Prelude.{◌≡◌, ◌<◌, IfSome, length, map};
ghost use Rattle.std.specs.List.{position_from};
ghost use Rattle.format.specs.Book as book;
ghost use Rattle.book.specs.Rows.{meaning};
ghost use Rattle.book.specs.Takes.{Takes};

use crate::Row;

// What taking one LSA comes to.
#[derive(Clone, Copy, PartialEq, Eq, Debug)]
pub enum Change {
    Left,
    Replaced,
    Added,
}

// The place of the used row of the same identity, and of the first unused row.
#[tactic(auto, using(crate::proofs::Places::within))]
fn place_of(rows: &[Row], row: Row) -> Option<usize>
    ensures value { result ≡ position_from (λ s. book.is_of (meaning row) (meaning s)) 0 rows.now }
    ensures within { IfSome result (λ i. i < length rows.now) }
{
    rows.iter().position(|other| row.is_of(other))
}

#[tactic(auto, using(crate::proofs::Places::within))]
fn free_place(rows: &[Row]) -> Option<usize>
    ensures value { result ≡ position_from (λ s. book.is_free (meaning s)) 0 rows.now }
    ensures within { IfSome result (λ i. i < length rows.now) }
{
    rows.iter().position(|row| row.is_free())
}

// The used row of the same identity is replaced where this one is newer; a new identity takes the first unused row.
#[tactic(auto, unfolding(format::specs::Book::take_one))]
pub fn take_one(rows: &mut [Row], row: Row) -> Change
    ensures { Takes (meaning row) (map meaning rows.old) result (map meaning rows.new) }
{
    if let Some(i) = place_of(rows, row) {
        if !row.is_newer(&rows[i]) {
            return Change::Left;
        }
        rows[i] = row;
        return Change::Replaced;
    }
    match free_place(rows) {
        Some(i) => {
            rows[i] = row;
            Change::Added
        }
        // Not where the update was checked: then there is a row for each new identity.
        None => Change::Left,
    }
}
