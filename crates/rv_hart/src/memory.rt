ghost use Rattle.std.specs.Prelude.{◌≡◌, ◌↔◌, ◌⊎◌, ◌%◌, ℕ, Option, IsTrue, IsSome};
ghost use Rattle.std.specs.Bool.{OnTrue, OnFalse};
ghost use Rattle.rv_hart.specs.Fetched.{IsFetched};
ghost use Rattle.rv_hart.specs.Map.{Map, read, stored};

use rv_insn::{FlatInsn, decode_flat};

/// What stands at a program counter: an instruction, a word that no row fits, or bytes of which one
/// isn't mapped.
#[derive(Clone, Copy)]
pub enum Fetched {
    Known(FlatInsn),
    Illegal(u32),
    Unmapped,
}

impl Fetched {
    /// What a word that was fetched is, if there is one.
    pub fn of_word(word: Option<u32>) -> Fetched
        ensures { (map : Map) (at : ℕ) → read map at 4 ≡ word → IsFetched map at result }
    {
        match word {
            Some(word) => match decode_flat(word) {
                Ok(insn) => Fetched::Known(insn),
                Err(_) => Fetched::Illegal(word),
            },
            None => Fetched::Unmapped,
        }
    }
}

/// A memory that a hart runs on: little-endian, with a byte at each address that is mapped.
/// `bytes` is the map that contracts see.
pub trait Memory {
    ghost bytes: { Self → ℕ → Option ℕ };

    /// The number that `width` bytes from `at` on make. None where one of them isn't mapped.
    fn load(&self, at: u64, width: u8) -> Option<u64>
        requires { (width ≡ 1) ⊎ (width ≡ 2) ⊎ (width ≡ 4) ⊎ (width ≡ 8) }
        ensures { result ≡ read (bytes self.now) at width };

    /// Stores the `width` low bytes of `value` from `at` on. False where one of the bytes there
    /// isn't mapped, and then nothing is written.
    fn store(&mut self, at: u64, width: u8, value: u64) -> bool
        requires { (width ≡ 1) ⊎ (width ≡ 2) ⊎ (width ≡ 4) ⊎ (width ≡ 8) }
        ensures mapped { IsTrue result ↔ IsSome (read (bytes self.old) at width) }
        ensures done { OnTrue result (bytes self.new ≡ stored (bytes self.old) at width value) }
        ensures refused { OnFalse result (bytes self.new ≡ bytes self.old) };

    /// The four bytes from `at` on as an instruction's word.
    fn fetch(&self, at: u64) -> Option<u32>
        ensures { result ≡ read (bytes self.now) at 4 };

    /// What stands at `at`, which the memory may keep.
    fn instruction(&mut self, at: u64) -> Fetched
        requires { at % 4 ≡ 0 }
        ensures fetched { IsFetched (bytes self.old) at result }
        ensures same { bytes self.new ≡ bytes self.old }
    {
        Fetched::of_word(self.fetch(at))
    }
}
