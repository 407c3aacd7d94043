// The fields that have a length of their own: how many bytes of the packet one has, and what it says.
ghost use Rattle.std.specs.Prelude.{◌≡◌, ℕ, ◌+◌, ◌≤◌, List, length};
ghost use Rattle.format.specs.Strip.{Entry, u8_at, u16_at, u24_at, wide16_at, u32_at, u64_at, ip4_at};
ghost use Rattle.strip_push.specs.Values.{entry_of};

use crate::FieldValue;
use util::{read_be_u16, read_be_u24, read_be_u32, read_be_u64, read_ipv4_addr};

pub trait Field {
    const SIZE: usize;

    ghost SIZE: { ℕ };

    // The entry that shows the field at p of a body, by the entry's id, the body and its offset.
    ghost entry: { (id : ℕ) → List ℕ → (offset p : ℕ) → Entry };

    fn read(body: &[u8], p: usize) -> FieldValue
        requires { p + SIZE ≤ length body.now }
        ensures { (id offset : ℕ) → entry_of result id (offset + p) (offset + p + SIZE) ≡ entry id body.now offset p };
}

pub struct U8;

impl Field for U8 {
    const SIZE: usize = 1;

    ghost SIZE = { 1 };

    ghost entry = { u8_at };

    fn read(body: &[u8], p: usize) -> FieldValue {
        FieldValue::U8(body[p])
    }
}

pub struct U16;

impl Field for U16 {
    const SIZE: usize = 2;

    ghost SIZE = { 2 };

    ghost entry = { u16_at };

    fn read(body: &[u8], p: usize) -> FieldValue {
        FieldValue::U16(read_be_u16(body, p))
    }
}

// 24 bits that are no metric. They have no kind of their own.
pub struct U24;

impl Field for U24 {
    const SIZE: usize = 3;

    ghost SIZE = { 3 };

    ghost entry = { u24_at };

    fn read(body: &[u8], p: usize) -> FieldValue {
        FieldValue::U32(read_be_u24(body, p))
    }
}

// A number of 16 bits that is shown as one of 32.
pub struct Wide16;

impl Field for Wide16 {
    const SIZE: usize = 2;

    ghost SIZE = { 2 };

    ghost entry = { wide16_at };

    fn read(body: &[u8], p: usize) -> FieldValue {
        FieldValue::U32(u32::from(read_be_u16(body, p)))
    }
}

pub struct U32;

impl Field for U32 {
    const SIZE: usize = 4;

    ghost SIZE = { 4 };

    ghost entry = { u32_at };

    fn read(body: &[u8], p: usize) -> FieldValue {
        FieldValue::U32(read_be_u32(body, p))
    }
}

pub struct U64;

impl Field for U64 {
    const SIZE: usize = 8;

    ghost SIZE = { 8 };

    ghost entry = { u64_at };

    fn read(body: &[u8], p: usize) -> FieldValue {
        FieldValue::U64(read_be_u64(body, p))
    }
}

pub struct Ipv4;

impl Field for Ipv4 {
    const SIZE: usize = 4;

    ghost SIZE = { 4 };

    ghost entry = { ip4_at };

    fn read(body: &[u8], p: usize) -> FieldValue {
        FieldValue::Ipv4(read_ipv4_addr(body, p))
    }
}
