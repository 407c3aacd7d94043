// The LSAs of an update, one after another, each as its row.
#![tactic(auto)]

ghost use Rattle.std.specs.Prelude.{◌≡◌, ◌≤◌, length, take, true, MatchOption};
ghost use Rattle.std.proofs.Math.Option.{none, some};
ghost use Rattle.format.specs.Bytes.{part};
ghost use Rattle.format.specs.Cut.{record_rule};
ghost use Rattle.format.specs.Header.{is_known, header_at};
ghost use Rattle.format.specs.Book as book;
ghost use Rattle.book.specs.Rows.{meaning};

use crate::Row;
use header::LsaHeader;
use util::declared_length;

#[derive(Clone, Copy, Drop)]
pub struct Lsas<'a> {
    version: u8,
    body: &'a [u8],
    count: u32,
    place: usize,
    ghost known: { is_known version ≡ true },
    ghost within: { place ≤ length body.now },
}

impl<'a> Lsas<'a> {
    ghost use Rattle.book.specs.Lsas.{left_of};

    // Of a body from a place on, at most as many as the count.
    pub fn new(version: u8, body: &'a [u8], count: u32, place: usize) -> Lsas<'a>
        requires known { is_known version ≡ true }
        requires within { place ≤ length body.now }
        ensures { left_of result ≡ book.rows_from version body.now count place }
    {
        Lsas {
            version,
            body,
            count,
            place,
        }
    }

    // The first of them, as many as this.
    pub fn first(self, count: u32) -> Lsas<'a>
        requires { count ≤ self.count }
        ensures { left_of result ≡ take count (left_of self.entry) }
    {
        Lsas {
            version: self.version,
            body: self.body,
            count,
            place: self.place,
        }
    }
}

// The LSA that stands at a place of a body: its row, and its length.
fn lsa_at(version: u8, body: &[u8], place: usize) -> Option<(Row, usize)>
    requires known { is_known version ≡ true }
    requires within { place ≤ length body.now }
    ensures { MatchOption result (record_rule body.now place ≡ none)
        (λ x. (record_rule body.now place ≡ some x.1) × (meaning x.0 ≡ book.row_of version (header_at version (part body.now place x.1)))) }
{
    let length = declared_length(body, place, LsaHeader::SIZE, LsaHeader::LENGTH_AT)?;
    let header = LsaHeader::read(version, &body[place..place + length]).ok()?;
    Some((Row::new(version, header), length))
}

impl<'a> Iterator for Lsas<'a> {
    ghost use Rattle.std.specs.Iterator.{YieldsFirstBy, item_count};
    ghost use Rattle.book.specs.Lsas.{left_of};

    type Item = Row;

    ghost next_gives = { YieldsFirstBy meaning left_of };

    ghost remaining = { item_count left_of };

    fn next(&mut self) -> Option<Row> {
        if self.count == 0 {
            return None;
        }
        let (row, length) = lsa_at(self.version, self.body, self.place)?;
        self.place += length;
        self.count -= 1;
        Some(row)
    }
}
