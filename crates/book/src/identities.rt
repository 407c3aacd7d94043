// Identities that are there twice, and those that are new.
#![tactic(auto)]

ghost use Rattle.std.specs.Prelude.{◌≡◌, map, ltb};
ghost use Rattle.std.specs.List.{list_any};
ghost use Rattle.format.specs.Book as book;
ghost use Rattle.book.specs.Rows.{meaning};
ghost use Rattle.book.specs.Lsas.{left_of};

use crate::Row;
use crate::filter::{WORDS, set_bit};
use crate::lsas::Lsas;

// Whether two used rows share an identity. Most rows are the first with their bit, and need no look back.
pub fn any_twice(rows: &[Row]) -> bool
    ensures { result ≡ book.is_twice (map meaning rows.now) }
{
    let mut words = [0; WORDS];
    for i in 0..rows.len() {
        let row = rows[i];
        if !row.is_free() && set_bit(&mut words, row.bit()) && is_used(&rows[..i], row) {
            return true;
        }
    }
    false
}

// Whether the LSAs have more new identities than this. Each counts where the first LSA that has it stands.
pub fn more_new_than(most: usize, lsas: Lsas, rows: &[Row]) -> bool
    ensures { result ≡ ltb most (book.new_identities (map meaning rows.now) (left_of lsas.entry)) }
{
    let mut earlier = 0;
    let mut new = 0;
    for lsa in lsas {
        if !is_used(rows, lsa) && !is_met(lsas.first(earlier), lsa) {
            if new == most {
                return true;
            }
            new += 1;
        }
        earlier += 1;
    }
    false
}

// Whether a used row has this one's identity, and whether an LSA has.
fn is_used(rows: &[Row], row: Row) -> bool
    ensures { result ≡ list_any (λ s. book.is_of (meaning row) (meaning s)) rows.now }
{
    rows.iter().any(|other| row.is_of(other))
}

fn is_met(mut lsas: Lsas, row: Row) -> bool
    ensures { result ≡ list_any (book.is_of (meaning row)) (left_of lsas.entry) }
{
    lsas.any(|other| row.is_of(&other))
}
