// A part of the packet that begins with an LSA's header.
ghost use Rattle.std.specs.Prelude.{◌≡◌, ◌≤◌, length};
ghost use Rattle.format.specs.Header.{header_size};

use strip_put::Part;

#[derive(Clone, Copy, PartialEq, Eq, Debug, Drop)]
pub struct LsaPart<'a> {
    pub part: Part<'a>,
    ghost has_header: { header_size ≤ length part.bytes.now },
}

impl<'a> LsaPart<'a> {
    pub fn new(part: Part<'a>) -> LsaPart<'a>
        requires { header_size ≤ length part.bytes.now }
        ensures { result.part ≡ part.entry }
    {
        LsaPart { part }
    }
}
