// Where things stand in an image.
ghost use Rattle.std.specs.Prelude.{◌≡◌, ◌+◌, ◌^◌, ◌<◌, ◌≤◌, ◌↔◌, length, IsTrue};
ghost use Rattle.image.specs.Blocks.{pages, place_from};
ghost use Rattle.image.specs.Format.{Deep, blocks_for};
ghost use Rattle.image.specs.Headers.{header_in};

use crate::words::read_word;

/// The words of a block.
pub const BLOCK_WORDS: usize = 128;

/// The bytes of a block.
pub const BLOCK_BYTES: usize = 512;

/// How many of a block's words are content.
pub const PAGE_WORDS: usize = 126;

/// The place of a block's check.
pub const CHECK: usize = 127;

/// The bytes of the longest image: 43 blocks.
pub const LONGEST_IMAGE: usize = 22016;

/// The most data words that an image holds.
pub const LARGEST_DATA: usize = 4096;

const DEEPEST: u32 = 8;

// Whether an image can have a depth.
pub(crate) fn is_depth(depth: u32) -> bool
    ensures { IsTrue result ↔ Deep depth }
{
    (1..=DEEPEST).contains(&depth)
}

// How many blocks hold a number of words.
pub(crate) fn pages_for(words: usize) -> usize
    ensures { result ≡ pages words }
{
    words.div_ceil(PAGE_WORDS)
}

// How many blocks an image has, by the lengths of its program and its data.
pub(crate) fn block_total(program_len: usize, data_size: usize) -> usize
    ensures { result ≡ blocks_for program_len data_size }
{
    1 + pages_for(program_len) + pages_for(data_size)
}

// The number of the word at a place of a list, given the first of its blocks.
pub(crate) fn place_from(block: usize, place: usize) -> usize
    requires block { block < 2 ^ 32 }
    requires place { place < 2 ^ 32 }
    ensures { result ≡ place_from block place }
{
    BLOCK_WORDS * (block + place / PAGE_WORDS) + (1 + place % PAGE_WORDS)
}

// What block 0 of an image says.
#[derive(Clone, Copy)]
pub(crate) struct Header {
    pub(crate) program_len: u32,
    pub(crate) data_size: u32,
    pub(crate) depth: u32,
}

impl Header {
    pub(crate) fn read(bytes: &[u8]) -> Header
        requires { 16 ≤ length bytes.now }
        ensures { result ≡ header_in bytes.now }
    {
        Header {
            program_len: read_word(bytes, 1),
            data_size: read_word(bytes, 2),
            depth: read_word(bytes, 3),
        }
    }

    // The first block of the data words.
    pub(crate) fn data_block(self) -> usize
        ensures { result ≡ 1 + pages self.program_len }
    {
        1 + pages_for(self.program_len as usize)
    }

    // How many blocks the image has.
    pub(crate) fn blocks(self) -> usize
        ensures { result ≡ blocks_for self.program_len self.data_size }
    {
        block_total(self.program_len as usize, self.data_size as usize)
    }
}
