// The readers, at both ends of a slice.
use crate::refused;
use header::LsaHeader;
use refusal::Refusal;
use replay_text::{line, number, word};
use std::io;
use std::io::Write;
use util::{read_be_u16, read_be_u24, read_be_u32, read_be_u64, read_ipv4_addr};

pub fn run(to: &mut impl Write) -> io::Result<()> {
    let s = b"\x01\x80\xff\x00\x7f\xfe\x10\x20\x0a";
    word(to, b"u16")?;
    number(to, read_be_u16(s, 0) as u64)?;
    number(to, read_be_u16(s, 7) as u64)?;
    line(to)?;
    word(to, b"u24")?;
    number(to, read_be_u24(s, 0) as u64)?;
    number(to, read_be_u24(s, 6) as u64)?;
    line(to)?;
    word(to, b"u32")?;
    number(to, read_be_u32(s, 0) as u64)?;
    number(to, read_be_u32(s, 5) as u64)?;
    line(to)?;
    word(to, b"u64")?;
    number(to, read_be_u64(s, 0))?;
    number(to, read_be_u64(s, 1))?;
    line(to)?;
    word(to, b"ip4")?;
    number(to, read_ipv4_addr(s, 2) as u64)?;
    number(to, read_ipv4_addr(s, 5) as u64)?;
    line(to)?;
    headers(to)
}

// One header in both versions.
fn headers(to: &mut impl Write) -> io::Result<()> {
    let s = b"\x0e\x10\x22\x0a\x01\x00\x00\x05\xc0\xa8\x00\x01\x80\x00\x00\x02\x12\x34\x00\x18";
    word(to, b"header")?;
    reading(to, LsaHeader::read(2, s))?;
    word(to, b"header")?;
    reading(to, LsaHeader::read(3, s))
}

fn reading(to: &mut impl Write, r: Result<LsaHeader, Refusal>) -> io::Result<()> {
    match r {
        Ok(h) => header(to, h)?,
        Err(refusal) => refused(to, refusal)?,
    }
    line(to)
}

fn header(to: &mut impl Write, h: LsaHeader) -> io::Result<()> {
    number(to, h.age as u64)?;
    number(to, h.ls_type as u64)?;
    number(to, h.link_state_id as u64)?;
    number(to, h.advertising_router as u64)?;
    number(to, h.sequence_number as u64)?;
    number(to, h.checksum as u64)?;
    number(to, h.length as u64)
}
