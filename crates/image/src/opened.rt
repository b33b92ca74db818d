// An opened image, and what it answers.
ghost use Rattle.std.specs.Prelude.{◌≡◌, ◌+◌, ◌*◌, ◌≤◌, length};
ghost use Rattle.std.specs.List.{slice_get};
ghost use Rattle.image.specs.Blocks.{pages};
ghost use Rattle.image.specs.Format.{data_block_of, words_from};
ghost use Rattle.image.specs.Headers.{header_in};
ghost use Rattle.image.specs.Whole.{IsWhole};

use crate::layout::{Header, place_from};
use crate::words::read_word;

/// The bytes that hold an image.
#[derive(Clone, Copy, PartialEq, Eq, Debug)]
pub struct Image<'a> {
    pub(crate) bytes: &'a [u8],
    ghost whole: { IsWhole bytes.now },
}

impl Image<'_> {
    ghost use Rattle.image.specs.Opening.{contents_of};

    fn header(&self) -> Header
        ensures { result ≡ header_in self.now.bytes.now }
    {
        Header::read(self.bytes)
    }

    // The word at a place of a list, given the first of its blocks and its length, or none beyond the last.
    #[tactic(auto, using(crate::proofs::Contents::nth_word, crate::proofs::Contents::nth_none))]
    fn item(&self, first: usize, len: u32, place: usize) -> Option<u32>
        requires { 512 * (first + pages len) ≤ length self.now.bytes.now }
        ensures { result ≡ slice_get (words_from self.now.bytes.now first len) place }
    {
        (place < len as usize).then(|| read_word(self.bytes, place_from(first, place)))
    }

    /// How many words the program has.
    #[tactic(auto, using(crate::proofs::Contents::length_words))]
    pub fn program_len(&self) -> usize
        ensures { result ≡ length (contents_of self.now).program }
    {
        self.header().program_len as usize
    }

    /// How many data words there are.
    #[tactic(auto, using(crate::proofs::Contents::length_words))]
    pub fn data_size(&self) -> usize
        ensures { result ≡ length (contents_of self.now).words }
    {
        self.header().data_size as usize
    }

    /// The depth of the machine's buffers.
    pub fn depth(&self) -> u32
        ensures { result ≡ (contents_of self.now).depth }
    {
        self.header().depth
    }

    /// The first block of the data words.
    #[tactic(auto, using(crate::proofs::Contents::length_words))]
    pub fn data_block(&self) -> usize
        ensures { result ≡ data_block_of (contents_of self.now) }
    {
        self.header().data_block()
    }

    /// A word of the program by its place, or none beyond the last.
    pub fn program_word(&self, place: usize) -> Option<u32>
        ensures { result ≡ slice_get (contents_of self.now).program place }
    {
        self.item(1, self.header().program_len, place)
    }

    /// A data word by its place, or none beyond the last.
    pub fn data_word(&self, place: usize) -> Option<u32>
        ensures { result ≡ slice_get (contents_of self.now).words place }
    {
        let header = self.header();
        self.item(header.data_block(), header.data_size, place)
    }
}
