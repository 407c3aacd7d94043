// The kinds of entries, for those who write entries and those who read them: the first byte of each is its kind's number.
ghost use Rattle.strip_ids.specs.Kind.{Numbers};

use refusal::Refusal;

#[derive(Clone, Copy, PartialEq, Eq, Debug)]
pub enum Kind {
    Open = 1,
    Close = 2,
    U8 = 3,
    U16 = 4,
    U32 = 5,
    Ipv4 = 6,
    Ipv6 = 7,
    Bytes = 8,
    Unreachable = 9,
    U64 = 10,
}

impl TryFrom<u8> for Kind {
    type Error = Refusal;

    ghost try_from_gives = { Numbers };

    fn try_from(number: u8) -> Result<Kind, Refusal> {
        match number {
            1 => Ok(Kind::Open),
            2 => Ok(Kind::Close),
            3 => Ok(Kind::U8),
            4 => Ok(Kind::U16),
            5 => Ok(Kind::U32),
            6 => Ok(Kind::Ipv4),
            7 => Ok(Kind::Ipv6),
            8 => Ok(Kind::Bytes),
            9 => Ok(Kind::Unreachable),
            10 => Ok(Kind::U64),
            _ => Err(Refusal::NoKind),
        }
    }
}

// How many bytes a kind's body has: the id, start and end of every kind but a close, then the value, or the number of entries in a
// container.
pub const OPEN_BODY: usize = 13;

pub const CLOSE_BODY: usize = 0;

pub const U8_BODY: usize = 10;

pub const U16_BODY: usize = 11;

pub const U32_BODY: usize = 13;

pub const IPV4_BODY: usize = 13;

pub const IPV6_BODY: usize = 25;

pub const BYTES_BODY: usize = 9;

pub const UNREACHABLE_BODY: usize = 9;

pub const U64_BODY: usize = 17;

// How many an entry has: its kind, then the body.
pub const OPEN_LENGTH: usize = 1 + OPEN_BODY;

pub const CLOSE_LENGTH: usize = 1 + CLOSE_BODY;

pub const U8_LENGTH: usize = 1 + U8_BODY;

pub const U16_LENGTH: usize = 1 + U16_BODY;

pub const U32_LENGTH: usize = 1 + U32_BODY;

pub const IPV4_LENGTH: usize = 1 + IPV4_BODY;

pub const IPV6_LENGTH: usize = 1 + IPV6_BODY;

pub const BYTES_LENGTH: usize = 1 + BYTES_BODY;

pub const UNREACHABLE_LENGTH: usize = 1 + UNREACHABLE_BODY;

pub const U64_LENGTH: usize = 1 + U64_BODY;

// A container without what is inside it.
pub const CONTAINER_LENGTH: usize = OPEN_LENGTH + CLOSE_LENGTH;
