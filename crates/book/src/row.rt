// A row of the book, as it lies in the host's memory.
#![tactic(auto)]

ghost use Rattle.std.specs.Prelude.{◌≡◌, ◌<◌};
ghost use Rattle.format.specs.Book as book;
ghost use Rattle.book.specs.Rows.{meaning};
ghost use Rattle.book.specs.Ages.{is_used_old};
ghost use Rattle.book.specs.Filter.{filter_bits, bit_of};
ghost use Rattle.header.specs.Answers;

use header::{LsaHeader, Newness, newer};

// It is used where its mark is not zero; what else lies in an unused row is never looked at.
#[derive(Clone, Copy, Debug)]
#[repr(C)]
pub struct Row {
    pub version: u8,
    pub used: u8,
    pub ls_type: u16,
    pub link_state_id: u32,
    pub advertising_router: u32,
    pub sequence_number: u32,
    pub checksum: u16,
    pub age: u16,
}

impl Row {
    // The row of an LSA of a version.
    pub fn new(version: u8, header: LsaHeader) -> Row
        ensures { meaning result ≡ book.row_of version (Answers.meaning header) }
    {
        Row {
            version,
            used: 1,
            ls_type: header.ls_type,
            link_state_id: header.link_state_id,
            advertising_router: header.advertising_router,
            sequence_number: header.sequence_number,
            checksum: header.checksum,
            age: header.age,
        }
    }

    pub fn is_free(&self) -> bool
        ensures { result ≡ book.is_free (meaning self.now) }
    {
        self.used == 0
    }

    // Whether a row of the table is used, and has this one's identity. What differs most often comes first.
    #[tactic(auto, unfolding(format::specs::Book::same_identity))]
    pub fn is_of(&self, row: &Row) -> bool
        ensures { result ≡ book.is_of (meaning self.now) (meaning row.now) }
    {
        self.link_state_id == row.link_state_id
            && self.advertising_router == row.advertising_router
            && self.ls_type == row.ls_type
            && self.version == row.version
            && row.used != 0
    }

    // What newness compares: all of a header but its length.
    fn header(&self) -> LsaHeader
        ensures { Answers.meaning result ≡ book.header_of (meaning self.now) }
    {
        LsaHeader {
            age: self.age,
            ls_type: self.ls_type,
            link_state_id: self.link_state_id,
            advertising_router: self.advertising_router,
            sequence_number: self.sequence_number,
            checksum: self.checksum,
            length: 0,
        }
    }

    pub fn is_old(&self) -> bool
        ensures { result ≡ book.is_old (meaning self.now) }
    {
        LsaHeader::MAX_AGE < self.age
    }

    // What an unused row has for an age is no age.
    pub fn is_used_old(&self) -> bool
        ensures { result ≡ is_used_old (meaning self.now) }
    {
        !self.is_free() && self.is_old()
    }

    pub fn is_newer(&self, row: &Row) -> bool
        ensures { result ≡ book.is_newer (meaning self.now) (meaning row.now) }
    {
        newer(self.header(), row.header()) == Ok(Newness::First)
    }

    // Where a filter keeps the identity: the upper 17 bits of the sum of its parts, each multiplied by an odd number of its own,
    // since in a Router-LSA the link state id is the advertising router.
    pub fn bit(&self) -> usize
        ensures value { result ≡ bit_of (meaning self.now) }
        ensures within { result < filter_bits }
    {
        let id = u64::from(self.link_state_id);
        let router = u64::from(self.advertising_router);
        let type_and_version = u64::from(self.ls_type) * 0x100 + u64::from(self.version);
        let sum = id
            .wrapping_mul(0x9E3779B97F4A7C15)
            .wrapping_add(router.wrapping_mul(0x165667B19E3779F9))
            .wrapping_add(type_and_version.wrapping_mul(0xC2B2AE3D27D4EB4F));
        (sum >> 47) as usize
    }
}
