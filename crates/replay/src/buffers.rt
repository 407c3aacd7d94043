// The two arrays of the program. Only their length is told, which lending one as a slice needs.
ghost use Rattle.std.specs.Prelude.{◌≡◌, length};

// Longer than any file of samples/.
pub const FILE: usize = 1048576;

// The length of the longest strip of all: no call needs more room.
pub const ROOM: usize = 1228294;

pub fn file_buffer() -> [u8; FILE]
    ensures { 1048576 ≡ length result }
{
    buffer()
}

pub fn strip_buffer() -> [u8; ROOM]
    ensures { 1228294 ≡ length result }
{
    buffer()
}

pub fn buffer<const N: usize>() -> [u8; N]
    ensures { N ≡ length result }
{
    [0; N]
}
