// The ids of version 2 (RFC 2328 A.4, RFC 3101, RFC 5250), in their order.

// The header. Those of the LS checksum, 6, and of the length, 7, follow that of the LS sequence number.
pub const LS_AGE: u8 = 0;

pub const OPTIONS: u8 = 1;

pub const LS_TYPE: u8 = 2;

pub const LINK_STATE_ID: u8 = 3;

pub const ADVERTISING_ROUTER: u8 = 4;

pub const LS_SEQUENCE_NUMBER: u8 = 5;

pub const OPAQUE_TYPE: u8 = 8;

pub const OPAQUE_ID: u8 = 9;

// The bodies. Those of a router's bits Nt, V, E and B, 11 to 14, follow that of the byte that has them.
pub const FLAGS: u8 = 10;

pub const FLAG_E: u8 = 13;

pub const NUM_LINKS: u8 = 15;

pub const LINKS: u8 = 16;

pub const NETWORK_MASK: u8 = 17;

pub const ATTACHED_ROUTERS: u8 = 18;

pub const METRIC: u8 = 19;

pub const TOS_METRICS: u8 = 20;

pub const FORWARDING_ADDRESS: u8 = 21;

pub const EXTERNAL_ROUTE_TAG: u8 = 22;

pub const BODY: u8 = 23;

pub const TLVS: u8 = 24;

pub const UNPARSED: u8 = 25;

// A link.
pub const LINK_ID: u8 = 64;

pub const LINK_DATA: u8 = 65;

pub const LINK_TYPE: u8 = 66;

pub const NUM_TOS: u8 = 67;

pub const LINK_METRIC: u8 = 68;

pub const LINK_TOS_METRICS: u8 = 69;

// A TOS metric.
pub const TOS_FLAG_E: u8 = 80;

pub const TOS: u8 = 81;

pub const TOS_METRIC: u8 = 82;

pub const TOS_FORWARDING_ADDRESS: u8 = 83;

pub const TOS_EXTERNAL_ROUTE_TAG: u8 = 84;
