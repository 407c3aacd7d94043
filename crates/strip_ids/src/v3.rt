// The ids of version 3 (RFC 5340 A.4, RFC 8362), in their order.

// The header. Those of the LS checksum, 5, and of the length, 6, follow that of the LS sequence number.
pub const LS_AGE: u8 = 0;

pub const LS_TYPE: u8 = 1;

pub const LINK_STATE_ID: u8 = 2;

pub const ADVERTISING_ROUTER: u8 = 3;

pub const LS_SEQUENCE_NUMBER: u8 = 4;

// The bodies. Those of a router's bits Nt, V, E and B, 8 to 11, follow that of the byte that has them.
pub const FLAGS: u8 = 7;

pub const FLAG_E: u8 = 10;

pub const FLAG_F: u8 = 12;

pub const FLAG_T: u8 = 13;

pub const OPTIONS: u8 = 14;

pub const LINKS: u8 = 15;

pub const ATTACHED_ROUTERS: u8 = 16;

pub const METRIC: u8 = 17;

pub const PREFIX_LENGTH: u8 = 18;

pub const PREFIX_OPTIONS: u8 = 19;

pub const PREFIX: u8 = 20;

pub const DESTINATION_ROUTER_ID: u8 = 21;

pub const REFERENCED_LS_TYPE: u8 = 22;

pub const FORWARDING_ADDRESS: u8 = 23;

pub const EXTERNAL_ROUTE_TAG: u8 = 24;

pub const REFERENCED_LINK_STATE_ID: u8 = 25;

pub const ROUTER_PRIORITY: u8 = 26;

pub const LINK_LOCAL_ADDRESS: u8 = 27;

pub const NUM_PREFIXES: u8 = 28;

pub const PREFIXES: u8 = 29;

pub const REFERENCED_ADVERTISING_ROUTER: u8 = 30;

pub const BODY: u8 = 31;

pub const TLVS: u8 = 32;

pub const UNPARSED: u8 = 33;

// A link.
pub const LINK_TYPE: u8 = 64;

pub const LINK_METRIC: u8 = 65;

pub const INTERFACE_ID: u8 = 66;

pub const NEIGHBOR_INTERFACE_ID: u8 = 67;

pub const NEIGHBOR_ROUTER_ID: u8 = 68;

// A prefix in a list.
pub const LIST_PREFIX_LENGTH: u8 = 80;

pub const LIST_PREFIX_OPTIONS: u8 = 81;

pub const LIST_PREFIX_METRIC: u8 = 82;

pub const LIST_PREFIX: u8 = 83;
