// The book: a table of rows, each the header of an LSA that was taken; and a whole update taken against it.
#![tactic(auto)]

pub use row::Row;
pub use take_all::Counts;
pub use update::take_update;

mod ages;
mod filter;
mod identities;
mod lsas;
mod row;
mod take;
mod take_all;
mod update;
