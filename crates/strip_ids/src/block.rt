// The ids of the blocks after a packet (RFC 5613, RFC 7166), which mean the same in both versions.

// The LLS data block and its fields.
pub const LLS_CHECKSUM: u8 = 128;

pub const LLS_DATA_LENGTH: u8 = 129;

pub const LLS_TLVS: u8 = 130;

pub const LLS: u8 = 136;

// The authentication trailer of OSPFv3 and its fields.
pub const AUTH_TYPE: u8 = 144;

pub const AUTH_DATA_LEN: u8 = 145;

pub const SA_ID: u8 = 146;

pub const CRYPTO_SEQUENCE_NUMBER: u8 = 147;

pub const AUTH_DATA: u8 = 148;

pub const AUTH_TRAILER: u8 = 152;
