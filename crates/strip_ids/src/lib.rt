// The numbers of the strip's format, as docs/STRIP.md lists them: the kinds of entries with their lengths, a module for
// each version's field ids and one for those of the blocks after a packet, and here the ids of LSAs that mean the same in both
// versions. In the definitions they stand in crate `format`.
#![tactic(auto)]

pub mod block;
pub mod kind;
pub mod v2;
pub mod v3;

// What stands in an array: a link, a TOS metric (version 2) or a prefix (version 3), an attached router.
pub const LINK: u8 = 96;

pub const TOS_METRIC_OR_PREFIX: u8 = 97;

pub const ATTACHED_ROUTER: u8 = 98;

// The containers of the walks: a header of a list, an LSA of an update, and the outer array of both.
pub const HEADER: u8 = 112;

pub const LSA: u8 = 113;

pub const OUTER: u8 = 114;
