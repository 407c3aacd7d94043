// A part of the packet.
ghost use Rattle.std.specs.Prelude.{◌≡◌, ◌+◌, ◌≤◌, ◌<◌, length, take, drop};

use std::ops::Range;

// The bytes of a part, and the place in the packet of the first of them. Every place up to its end fits in 32 bits.
#[derive(Clone, Copy, PartialEq, Eq, Debug, Drop)]
pub struct Part<'a> {
    pub bytes: &'a [u8],
    pub offset: u32,
    ghost in_range: { offset + length bytes.now < 4294967296 },
}

impl<'a> Part<'a> {
    pub fn new(bytes: &'a [u8], offset: u32) -> Part<'a>
        requires { offset + length bytes.now < 4294967296 }
        ensures { (result.bytes ≡ bytes.entry) × (result.offset ≡ offset) }
    {
        Part { bytes, offset }
    }

    pub fn len(self) -> usize
        ensures { result ≡ length self.entry.bytes.now }
    {
        self.bytes.len()
    }

    // Where in the packet the n bytes from p on lie.
    pub fn range(self, p: usize, n: usize) -> Range<u32>
        requires { p + n ≤ length self.bytes.now }
        ensures { (result.start ≡ self.entry.offset + p) × (result.end ≡ self.entry.offset + p + n) }
    {
        let start = self.offset + p as u32;
        start..start + n as u32
    }

    // The same in 64 bits, so that the compiler adds the parts of both places in one number (crate strip_push).
    pub fn wide_range(self, p: usize, n: usize) -> Range<u64>
        requires { p + n ≤ length self.bytes.now }
        ensures { (result.start ≡ self.entry.offset + p) × (result.end ≡ self.entry.offset + p + n) }
    {
        let start = u64::from(self.offset) + p as u64;
        start..start + n as u64
    }

    // The n bytes from p on, as a part.
    pub fn part(self, p: usize, n: usize) -> Part<'a>
        requires { p + n ≤ length self.bytes.now }
        ensures { (result.bytes.now ≡ take n (drop p self.entry.bytes.now)) × (result.offset ≡ self.entry.offset + p) }
    {
        Part {
            bytes: &self.bytes[p..p + n],
            offset: self.offset + p as u32,
        }
    }

    // All from p on.
    pub fn rest(self, p: usize) -> Part<'a>
        requires { p ≤ length self.bytes.now }
        ensures { (result.bytes.now ≡ drop p self.entry.bytes.now) × (result.offset ≡ self.entry.offset + p) }
    {
        Part {
            bytes: &self.bytes[p..],
            offset: self.offset + p as u32,
        }
    }
}
