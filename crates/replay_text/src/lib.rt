// Words and numbers to a writer.
#![tactic(auto)]

ghost use Rattle.std.specs.Prelude.{◌∷◌, [], OnOk, decimal};
ghost use Rattle.std.specs.Io.KnownBytes.{Appends};

use std::io;
use std::io::Write;

pub fn word<W: Write>(to: &mut W, w: &[u8]) -> io::Result<()>
    ensures { OnOk result (Appends (W.contents to.old) (W.contents to.new) w.now) }
{
    to.write_all(w)
}

pub fn number<W: Write>(to: &mut W, n: u64) -> io::Result<()>
    ensures { OnOk result (Appends (W.contents to.old) (W.contents to.new) (32 ∷ decimal n)) }
{
    write!(to, " {n}")
}

pub fn line<W: Write>(to: &mut W) -> io::Result<()>
    ensures { OnOk result (Appends (W.contents to.old) (W.contents to.new) (10 ∷ [])) }
{
    to.write_all(b"\n")
}
