// Blocks: 128 words with a number and a check.
ghost use Rattle.std.specs.Prelude.{◌≡◌, ◌+◌, ◌*◌, ◌%◌, ◌^◌, ◌<◌, ◌≤◌, fold, length, MatchResult};
ghost use Rattle.std.specs.List.{range_with_len};
ghost use Rattle.image.specs.Words.{word_at};
ghost use Rattle.image.specs.Blocks.{check, block_count, RightMarks, Sound, AllSound};

use crate::layout::{BLOCK_BYTES, CHECK};
use crate::words::read_word;

/// A block whose number or check is wrong, by its position.
#[derive(Clone, Copy, PartialEq, Eq, Debug)]
pub struct BlockFault {
    pub block: usize,
}

// The sum over i below the count of (2 i + 1) times word i, as a word. The clause follows the `fold` step by step; what that
// comes to is the clause of `block_check`.
fn weighted_sum(words: &[u8], count: u32) -> u32
    requires few { count < 128 }
    requires within { 4 * count ≤ length words.now }
    ensures { result ≡ fold (λ sum i. (sum + word_at words.now i * (2 * i + 1) % 2 ^ 32) % 2 ^ 32) 0
        (range_with_len 0 count) }
{
    (0..count).fold(0, |sum: u32, i| {
        sum.wrapping_add(read_word(words, i as usize).wrapping_mul(2 * i + 1))
    })
}

// The check that a block ought to have.
pub(crate) fn block_check(block: &[u8; BLOCK_BYTES]) -> u32
    ensures { result ≡ check (word_at block.now) }
{
    weighted_sum(block, CHECK as u32)
}

// One block, by its position.
fn check_block(position: usize, block: &[u8; BLOCK_BYTES]) -> Result<(), BlockFault>
    ensures { MatchResult result (λ _. RightMarks (word_at block.now) position)
        (λ f. (f.block ≡ position) × (RightMarks (word_at block.now) position → ⊥)) }
{
    let number = read_word(block, 0);
    let check = read_word(block, CHECK);
    if number as usize == position && check == block_check(block) {
        Ok(())
    } else {
        Err(BlockFault { block: position })
    }
}

// Each block in turn, up to the first that is damaged.
pub(crate) fn check_blocks(bytes: &[u8]) -> Result<(), BlockFault>
    ensures { MatchResult result (λ _. AllSound bytes.now)
        (λ f. (f.block < block_count bytes.now) × (Sound bytes.now f.block → ⊥)) }
{
    let (blocks, _) = bytes.as_chunks::<BLOCK_BYTES>();
    for (position, block) in blocks.iter().enumerate() {
        check_block(position, block)?;
    }
    Ok(())
}
