// Decimal numbers, hexadecimal numbers and addresses as text, each from the place on where a writer stands.
#![tactic(auto, using(crate::proofs::Numerals::lengths))]

ghost use Rattle.std.specs.Prelude.{◌≡◌, ◌+◌, ◌≤◌, ◌<◌, length};
ghost use Rattle.format.specs.Wrote.{Wrote};
ghost use Rattle.strip_put.specs.Writer.{HasRoom, Writes};
ghost use Rattle.format.specs.Print.{digits, spaced, hex_digit, hex, place, dot, dotted};

use strip_put::Writer;

// One less than the most digits of a number of 64 bits.
const MORE: usize = 19;

// The number in decimal, of at most one digit more than k.
#[inline(always)]
pub fn put_digits(out: &mut Writer<'_>, n: u64, k: usize)
    requires { HasRoom out.old (k + 1) }
    ensures { Writes out.old (digits k n) out.new }
{
    out.at = digits_from(&mut *out.buffer, out.at, n, k);
}

// The place goes from digit to digit by itself: that of a writer which is handed on the compiler reads and writes again at each. So
// all else here is inlined, up to whoever has a writer of its own.
fn digits_from(out: &mut [u8], at: usize, n: u64, k: usize) -> usize
    requires { at + (k + 1) ≤ length out.old }
    ensures { Wrote out.old at (digits k n) out.new result }
{
    let digit = b'0' + (n % 10) as u8;
    let end = if k > 0 && n >= 10 {
        digits_from(out, at, n / 10, k - 1)
    } else {
        at
    };
    out[end] = digit;
    end + 1
}

fn hex_digit(d: u8) -> u8
    requires { d < 16 }
    ensures { result ≡ hex_digit d }
{
    if d < 10 { b'0' + d } else { b'a' + (d - 10) }
}

// The last k digits in base 16.
#[inline(always)]
pub fn put_hex(out: &mut Writer<'_>, n: u64, k: usize)
    requires { HasRoom out.old k }
    ensures { Writes out.old (hex k n) out.new }
{
    out.at = hex_from(&mut *out.buffer, out.at, n, k);
}

fn hex_from(out: &mut [u8], at: usize, n: u64, k: usize) -> usize
    requires { at + k ≤ length out.old }
    ensures { Wrote out.old at (hex k n) out.new result }
{
    if k == 0 {
        return at;
    }
    let end = hex_from(out, at, n / 16, k - 1);
    out[end] = hex_digit((n % 16) as u8);
    end + 1
}

// A number after a space.
#[inline(always)]
pub fn put_spaced(out: &mut Writer<'_>, n: u64)
    requires { HasRoom out.old 21 }
    ensures { Writes out.old (spaced n) out.new }
{
    out.put_u8(b' ');
    put_digits(out, n, MORE);
}

// Id, start and end.
#[inline(always)]
pub fn put_place(out: &mut Writer<'_>, id: u8, start: u32, end: u32)
    requires { HasRoom out.old 63 }
    ensures { Writes out.old (place id start end) out.new }
{
    put_spaced(out, id as u64);
    put_spaced(out, start as u64);
    put_spaced(out, end as u64);
}

// A number and a dot.
#[inline(always)]
fn put_dot(out: &mut Writer<'_>, n: u64)
    requires { HasRoom out.old 21 }
    ensures { Writes out.old (dot n) out.new }
{
    put_digits(out, n, MORE);
    out.put_u8(b'.');
}

// The four bytes of an address, joined by dots.
#[inline(always)]
pub fn put_dotted(out: &mut Writer<'_>, address: u32)
    requires { HasRoom out.old 83 }
    ensures { Writes out.old (dotted address) out.new }
{
    let [a, b, c, d] = address.to_be_bytes();
    put_dot(out, a as u64);
    put_dot(out, b as u64);
    put_dot(out, c as u64);
    put_digits(out, d as u64, MORE);
}
