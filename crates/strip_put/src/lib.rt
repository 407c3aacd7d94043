// What a strip is made from and where it goes: a part of the packet, which is read, and a lent buffer, which is written.
#![tactic(auto)]

ghost use Rattle.std.specs.Prelude.{◌≡◌, [], ◌∷◌, length};
ghost use Rattle.format.specs.Bytes.{be16, be32, be64};
ghost use Rattle.strip_put.specs.Writer.{HasRoom, Writes};

pub use part::Part;

mod part;

// A buffer that is lent to be written, and the place in it where the next bytes go.
#[derive(Drop)]
pub struct Writer<'a> {
    pub buffer: &'a mut [u8],
    pub at: usize,
}

impl<'a> Writer<'a> {
    // Of what the writer leaves in the buffer a caller learns, since it holds the same one.
    pub fn new(buffer: &'a mut [u8], at: usize) -> Writer<'a>
        ensures same_buffer { result.buffer.ghost_name ≡ buffer.entry.ghost_name }
        ensures contents { result.buffer.now ≡ buffer.old }
        ensures place { result.at ≡ at }
    {
        Writer { buffer, at }
    }

    pub fn put_u8(&mut self, x: u8)
        requires { HasRoom self.old 1 }
        ensures { Writes self.old (x ∷ []) self.new }
    {
        self.buffer[self.at] = x;
        self.at += 1;
    }

    pub fn put(&mut self, bytes: &[u8])
        requires { HasRoom self.old (length bytes.now) }
        ensures { Writes self.old bytes.now self.new }
    {
        let end = self.at + bytes.len();
        self.buffer[self.at..end].copy_from_slice(bytes);
        self.at = end;
    }

    // A number, most significant byte first. `to_be_bytes` of a number that was read in this order is left as shifts by the compiler,
    // since the two reversals together are none.
    #[tactic(auto, using(crate::proofs::SwapLaws::stored16))]
    pub fn put_u16(&mut self, x: u16)
        requires { HasRoom self.old 2 }
        ensures { Writes self.old (be16 x) self.new }
    {
        self.put(&x.swap_bytes().to_le_bytes());
    }

    #[tactic(auto, using(crate::proofs::SwapLaws::stored32))]
    pub fn put_u32(&mut self, x: u32)
        requires { HasRoom self.old 4 }
        ensures { Writes self.old (be32 x) self.new }
    {
        self.put(&x.swap_bytes().to_le_bytes());
    }

    #[tactic(auto, using(crate::proofs::SwapLaws::stored64))]
    pub fn put_u64(&mut self, x: u64)
        requires { HasRoom self.old 8 }
        ensures { Writes self.old (be64 x) self.new }
    {
        self.put(&x.swap_bytes().to_le_bytes());
    }
}
