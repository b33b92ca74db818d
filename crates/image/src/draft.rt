// What an image is written from, and its words.
ghost use Rattle.std.specs.Prelude.{◌≡◌, ℕ, ◌+◌, ◌*◌, ◌/◌, ◌<◌, ◌≤◌, true, [], ◌∷◌, map, length, Err, MatchResult, slice_index};
ghost use Rattle.isa.specs.Words.{lawful, cleared};
ghost use Rattle.image.specs.Words.{AllWords};
ghost use Rattle.image.specs.Writing.{of_write, Writable, Writing, Held, Laid};
ghost use Rattle.image.specs.Format.{content, whole_word, blocks_of};

use crate::block::block_check;
use crate::layout::{
    BLOCK_BYTES, BLOCK_WORDS, CHECK, LARGEST_DATA, PAGE_WORDS, block_total, is_depth, pages_for,
};
use crate::words::write_word;
use crate::writing::WriteFault;
use isa::instruction::clear_spare_bits;
use isa::program::{check_length, check_words};

// What an image is written from.
#[derive(Clone, Copy)]
pub(crate) struct Draft<'a> {
    program: &'a [u32],
    words: &'a [u32],
    depth: u32,
    ghost writable: { Writable program.now words.now depth },
    ghost instructions_fit: { AllWords program.now },
    ghost words_fit: { AllWords words.now },
}

// A lawful word as an image holds it.
fn cleared_word(word: u32) -> u32
    requires { lawful word ≡ true }
    ensures { result ≡ cleared word }
{
    clear_spare_bits(word).unwrap_or(0)
}

impl<'a> Draft<'a> {
    ghost use Rattle.image.specs.Drafts.{drafted, IsDraftOf};

    // The draft, or the first fault in the order program's length, depth, data, program's words.
    pub(crate) fn new(
        program: &'a [u32],
        words: &'a [u32],
        depth: u32,
    ) -> Result<Draft<'a>, WriteFault>
        ensures { MatchResult result (IsDraftOf program.now words.now depth)
            (λ f. (space : ℕ) → Writing program.now words.now depth space (Err (of_write f))) }
    {
        check_length(program)?;
        if !is_depth(depth) {
            return Err(WriteFault::Depth);
        }
        if words.len() > LARGEST_DATA {
            return Err(WriteFault::TooMuchData);
        }
        check_words(program)?;
        Ok(Draft {
            program,
            words,
            depth,
        })
    }

    pub(crate) fn blocks(&self) -> usize
        ensures { result ≡ blocks_of (drafted self.now) }
    {
        block_total(self.program.len(), self.words.len())
    }

    // Content word j of block 0.
    fn header_word(&self, j: usize) -> u32
        ensures { result ≡
            slice_index (length self.now.program.now ∷ length self.now.words.now ∷ self.now.depth ∷ []) j }
    {
        let header = [
            self.program.len() as u32,
            self.words.len() as u32,
            self.depth,
        ];
        header.get(j).copied().unwrap_or(0)
    }

    fn program_word(&self, place: usize) -> u32
        ensures { result ≡ slice_index (map cleared self.now.program.now) place }
    {
        self.program
            .get(place)
            .map_or(0, |word| cleared_word(*word))
    }

    fn data_word(&self, place: usize) -> u32
        ensures { result ≡ slice_index self.now.words.now place }
    {
        self.words.get(place).copied().unwrap_or(0)
    }

    // Content word j of a block.
    fn content_word(&self, block: usize, j: usize) -> u32
        requires block { block < 43 }
        requires within { j < 126 }
        ensures { result ≡ content (drafted self.now) block j }
    {
        if block == 0 {
            return self.header_word(j);
        }
        let page = block - 1;
        let pages = pages_for(self.program.len());
        if page < pages {
            self.program_word(PAGE_WORDS * page + j)
        } else {
            self.data_word(PAGE_WORDS * (page - pages) + j)
        }
    }

    // Word i of the image, where the bytes hold those before it.
    fn next_word(&self, bytes: &[u8], i: usize) -> u32
        requires before { Held (drafted self.now) i bytes.now }
        requires within { i < 128 * 43 }
        requires space { 512 * (i / 128) + 512 ≤ length bytes.now }
        ensures { result ≡ whole_word (drafted self.now) i }
    {
        let block = i / BLOCK_WORDS;
        let (blocks, _) = bytes.as_chunks::<BLOCK_BYTES>();
        match i % BLOCK_WORDS {
            0 => block as u32,
            CHECK => block_check(&blocks[block]),
            j => self.content_word(block, j - 1),
        }
    }

    // The words of the image, over what stands in the bytes.
    pub(crate) fn write_words(&self, bytes: &mut [u8])
        requires { 512 * blocks_of (drafted self.now) ≤ length bytes.old }
        ensures { Laid (drafted self.now) (128 * blocks_of (drafted self.now)) bytes.old bytes.new }
    {
        // by the number of each word and not by blocks lent out, since a block's check is read from the bytes before it
        for i in 0..BLOCK_WORDS * self.blocks() {
            let word = self.next_word(bytes, i);
            write_word(bytes, i, word);
        }
    }
}
