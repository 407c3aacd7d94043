// What the records of a walk are in a strip: each an object around its entries.
ghost use Rattle.std.specs.Prelude.{◌≡◌, ℕ, ◌+◌, ◌*◌, ◌≤◌, List, length};
ghost use Rattle.std.proofs.Math.Option.{some};
ghost use Rattle.format.specs.Cut.{Rule};
ghost use Rattle.format.specs.Header.{header_size};
ghost use Rattle.format.specs.Strip.{Entry, direct, code, encode};
ghost use Rattle.format.specs.Bytes.{part};
ghost use Rattle.format.specs.Inside.{Counts};
ghost use Rattle.format.proofs.Inside.{counts_container};
ghost use Rattle.strip_put.specs.Writer.{HasRoom, Writes};
ghost use Rattle.util.specs.Answers.{option_of};
ghost use Rattle.walk_list.specs.Object.{object};

use body::list::Record;
use header::LsaPart;
use std::marker::PhantomData;
use strip_ids::kind::{CONTAINER_LENGTH, OPEN_LENGTH};
use strip_push::finish_container;
use strip_put::{Part, Writer};

// A record with an LSA's header at its front.
pub trait Object {
    // The object's own id.
    const ID: u8;

    ghost ID: { ℕ };

    ghost rule: { Rule };

    // What is inside, by the record's bytes and the place of the first.
    ghost inside: { List ℕ → ℕ → List Entry };

    fn fits(body: &[u8], p: usize) -> Option<usize>
        requires { p ≤ length body.now }
        ensures { result ≡ option_of (rule body.now p) };

    // Answers how many entries that is, those inside containers left out.
    fn push(strip: &mut Writer, lsa: LsaPart) -> u32
        requires { HasRoom strip.old (length (encode (inside lsa.part.bytes.now lsa.part.offset))) }
        ensures wrote { Writes strip.old (encode (inside lsa.entry.part.bytes.now lsa.entry.part.offset)) strip.new }
        ensures entries_value { result ≡ direct 0 (inside lsa.entry.part.bytes.now lsa.entry.part.offset) };

    // The length of what `push` writes, wherever the record lies.
    fn measure(lsa: LsaPart) -> usize
        ensures by_index { (o : ℕ) → result ≡ length (encode (inside lsa.entry.part.bytes.now o)) }
        ensures upper_bound { result ≤ 19 * length lsa.entry.part.bytes.now };

    ghost has_header: { (b : List ℕ) (p n : ℕ) → rule b p ≡ some n → header_size ≤ n };

    ghost within: { (b : List ℕ) (p n : ℕ) → rule b p ≡ some n → p + n ≤ length b };

    // Whatever follows it, what is inside has as many direct entries.
    ghost counts: { (b : List ℕ) (offset : ℕ) → Counts (direct 0 (inside b offset)) (inside b offset) };
}

// Such an object as an entry of a list.
pub struct ObjectRecord<O> {
    object: PhantomData<O>,
}

#[tactic(auto, using(crate::proofs::Objects::object_length), unfolding(format::specs::Strip::code))]
impl<O: Object> Record for ObjectRecord<O> {
    ghost rule = { O.rule };

    ghost entries = { object O.ID O.inside };

    fn fits(body: &[u8], p: usize) -> Option<usize> {
        O::fits(body, p)
    }

    fn push(strip: &mut Writer, body: Part, p: usize, n: usize) {
        let opening = strip.at;
        strip.at += OPEN_LENGTH;
        let entries = O::push(strip, LsaPart::new(body.part(p, n)));
        finish_container(strip, opening, O::ID, body.range(p, n), entries);
    }

    fn measure(body: Part, p: usize, n: usize) -> usize {
        CONTAINER_LENGTH + O::measure(LsaPart::new(body.part(p, n)))
    }

    ghost within = { O.within };

    ghost one = { λ d o s. unfold object in counts_container O.ID _ _ (O.counts (part d s.at s.len) (o + s.at)) };
}
