// The words in a block memory's bytes.
ghost use Rattle.std.specs.Prelude.{◌≡◌, ◌+◌, ◌-◌, ◌*◌, ◌%◌, ◌^◌, ◌<◌, ◌≤◌, length};
ghost use Rattle.image.specs.Words.{word_at, put_word};
ghost use Rattle.image.specs.Blocks.{check, block_word};
ghost use Rattle.blocks.specs.Layout.{block_of, place_of, rewritten};

use crate::block_memory::BlockMemory;
use image::layout::{BLOCK_WORDS, CHECK, PAGE_WORDS};

// The word with the number i. The image has the same two functions to itself: each asks that the bytes be there, so it cannot be
// public.
fn read_word(bytes: &[u8], i: usize) -> u32
    requires { 4 * i + 4 ≤ length bytes.now }
    ensures { result ≡ word_at bytes.now i }
{
    let (words, _) = bytes.as_chunks::<4>();
    u32::from_be_bytes(words[i])
}

// Another word there.
#[tactic(auto, using(image::proofs::Bytes::copied_word))]
fn write_word(bytes: &mut [u8], i: usize, word: u32)
    requires { 4 * i + 4 ≤ length bytes.old }
    ensures { bytes.new ≡ put_word bytes.old i word }
{
    bytes[4 * i..4 * i + 4].copy_from_slice(&word.to_be_bytes());
}

// The check of a block once its word i is another one, from the check before. No other word is looked at.
fn updated_check(check: u32, i: usize, old: u32, new: u32) -> u32
    requires { i < 127 }
    ensures { result ≡ (check + (2 * i + 1) * ((new + 2 ^ 32 - old) % 2 ^ 32) % 2 ^ 32) % 2 ^ 32 }
{
    let weight = 2 * i as u32 + 1;
    check.wrapping_add(weight.wrapping_mul(new.wrapping_sub(old)))
}

// Another word in a block whose check is right, and the check right again.
fn rewrite(bytes: &mut [u8], block: usize, i: usize, word: u32)
    requires within { 512 * block + 512 ≤ length bytes.old }
    requires inside { i < 127 }
    requires checked { block_word bytes.old block 127 ≡ check (block_word bytes.old block) }
    ensures { bytes.new ≡ rewritten bytes.old block i word }
{
    let start = BLOCK_WORDS * block;
    let old = read_word(bytes, start + i);
    let check = updated_check(read_word(bytes, start + CHECK), i, old, word);
    write_word(bytes, start + i, word);
    write_word(bytes, start + CHECK, check);
}

// The place of a data word in its block, after the block's number. (The image's `place_from` says this and the block at once; it
// asks that both be small, so it cannot be public either.)
fn place_of(place: usize) -> usize
    ensures { result ≡ place_of place }
{
    1 + place % PAGE_WORDS
}

impl BlockMemory<'_> {
    // The block of a data word.
    fn block_of(&self, place: usize) -> usize
        requires { place < self.now.size }
        ensures { result ≡ block_of self.now.first place }
    {
        self.first + place / PAGE_WORDS
    }

    // The data word at a place.
    pub(crate) fn data_word(&self, place: usize) -> u32
        requires { place < self.now.size }
        ensures { result ≡ block_word self.now.bytes.now (block_of self.now.first place) (place_of place) }
    {
        let start = BLOCK_WORDS * self.block_of(place);
        read_word(self.bytes, start + place_of(place))
    }

    // Another data word there.
    pub(crate) fn change(&mut self, place: usize, word: u32)
        requires { place < self.old.size }
        ensures bytes { self.new.bytes.now ≡
            rewritten self.old.bytes.now (block_of self.old.first place) (place_of place) word }
        ensures loan { self.new.bytes.ghost_name ≡ self.old.bytes.ghost_name }
        ensures first { self.new.first ≡ self.old.first }
        ensures size { self.new.size ≡ self.old.size }
    {
        let block = self.block_of(place);
        rewrite(self.bytes, block, place_of(place), word);
    }
}
