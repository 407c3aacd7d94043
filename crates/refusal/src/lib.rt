// Why a call is turned down. Each reason has the number that docs and hosts know it by.
#![tactic(auto)]

ghost use Rattle.std.specs.Prelude.{◌≡◌};
ghost use Rattle.refusal.specs.Numbers.{number_of, needed_of};

// The reasons in the order of their numbers, from 1 on.
#[derive(Clone, Copy, PartialEq, Eq, Debug)]
pub enum Refusal {
    // The version is neither 2 nor 3.
    NoVersion,
    // There are more data than a call takes.
    TooMuch,
    // The offset is so large that a place would not fit in 32 bits.
    TooFar,
    // There are fewer data than a call needs.
    TooLittle,
    // The strip is longer than the lent buffer: how many bytes it needs.
    NoRoom(usize),
    // The place is beyond the strip's length.
    PlaceBeyond,
    // No entry has this kind.
    NoKind,
    // The entry is cut by the strip's end.
    EntryCut,
    // The range does not lie in the packet.
    NotInPacket,
    // A prefix is longer than 128 bits.
    PrefixTooLong,
    // An age is above MaxAge.
    AgeTooLarge,
    // No walk has this number.
    NoWalk,
    // These are too few bytes for an LSA, or too many.
    NoLsa,
    // Two used rows of the book share an identity.
    SharedIdentity,
    // The LSAs have more new identities than the book has unused rows.
    NoFreeRow,
}

impl Refusal {
    pub fn number(self) -> u8
        ensures { result ≡ number_of self }
    {
        match self {
            Refusal::NoVersion => 1,
            Refusal::TooMuch => 2,
            Refusal::TooFar => 3,
            Refusal::TooLittle => 4,
            Refusal::NoRoom(_) => 5,
            Refusal::PlaceBeyond => 6,
            Refusal::NoKind => 7,
            Refusal::EntryCut => 8,
            Refusal::NotInPacket => 9,
            Refusal::PrefixTooLong => 10,
            Refusal::AgeTooLarge => 11,
            Refusal::NoWalk => 12,
            Refusal::NoLsa => 13,
            Refusal::SharedIdentity => 14,
            Refusal::NoFreeRow => 15,
        }
    }

    // The length that is needed where there is no room; of all others 0.
    pub fn needed(self) -> usize
        ensures { result ≡ needed_of self }
    {
        match self {
            Refusal::NoRoom(length) => length,
            _ => 0,
        }
    }
}
