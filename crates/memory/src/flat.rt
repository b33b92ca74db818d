// A memory over the caller's words, at most the first 4,096. Those beyond are never touched.
ghost use Rattle.std.specs.Prelude.{◌≡◌, ℕ, List};
ghost use Rattle.memory.specs.Words.{ReplacesWord};
ghost use Rattle.memory.specs.Flats.{first_words, words_beyond, at_most_4096};

use crate::fault::NoWord;
use crate::meaning::{DataMemory, replace};

/// The most words that a memory has.
pub const LARGEST: usize = 4096;

/// A memory over the caller's words.
#[derive(Drop)]
pub struct FlatMemory<'a> {
    words: &'a mut [u32],
}

impl<'a> FlatMemory<'a> {
    /// A memory over these words.
    pub fn new(words: &'a mut [u32]) -> FlatMemory<'a>
        ensures { result.words ≡ words.entry }
    {
        FlatMemory { words }
    }
}

impl<'a> DataMemory for FlatMemory<'a> {
    ghost words = { λ m. first_words m.words.now };

    ghost few = { λ m. at_most_4096 m.words.now };

    ghost Frame = { ℕ × List ℕ };

    ghost frame = { λ m. (m.words.ghost_name, words_beyond m.words.now) };

    fn read(&mut self, address: u32) -> Result<u32, NoWord> {
        self.check_address(address)?;
        Ok(self.words[address as usize])
    }

    fn write(&mut self, address: u32, word: u32) -> Result<(), NoWord> {
        self.check_address(address)?;
        self.words[address as usize] = word;
        Ok(())
    }

    fn size(&self) -> u32 {
        self.words.len().min(LARGEST) as u32
    }
}

/// Replaces one of the caller's words, and answers the one that stood there.
pub fn replace_in(words: &mut [u32], address: u32, word: u32) -> Result<u32, NoWord>
    ensures { ReplacesWord first_words words_beyond words.old words.new address word result }
{
    let mut memory = FlatMemory::new(words);
    replace(&mut memory, address, word)
}
