// A filter of identities: bits that are set one after another. An identity whose bit isn't set has not been met.
#![tactic(auto)]

ghost use Rattle.std.specs.Prelude.{◌≡◌, ◌<◌, ℕ, true};
ghost use Rattle.book.specs.Filter.{filter_bits, is_set};

// 64 bits each, 131,072 in all.
pub const WORDS: usize = 2048;

// Sets a bit, and says whether it was set before.
pub fn set_bit(words: &mut [u64; WORDS], bit: usize) -> bool
    requires { bit < filter_bits }
    ensures before { result ≡ is_set words.old bit }
    ensures now { is_set words.new bit ≡ true }
    ensures kept { (n : ℕ) → is_set words.old n ≡ true → is_set words.new n ≡ true }
{
    let word = words[bit / 64];
    words[bit / 64] = word | 1 << (bit % 64);
    word >> (bit % 64) & 1 == 1
}
