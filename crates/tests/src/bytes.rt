// Bytes for the tests: images, and damage done to them. The check is worked out here once more, by hand.
use image::opening::open;
use image::writing::write;
use refusal::Refusal;
use std::alloc::Global;
use std::test::Fail;

pub const LOADC: u32 = 0x1100_0005;

fn number_and_figure(fault: impl Refusal + Drop) -> (u32, usize) {
    (fault.number(), fault.figure())
}

// The image of a program, data words and a depth.
pub fn image_of(heap: Global, program: &[u32], words: &[u32], depth: u32) -> Result<Vec<u8>, Fail> {
    let mut bytes = vec![in heap; 0u8; 22016]?;
    let len = write(program, words, depth, &mut bytes)?;
    bytes.truncate(len);
    Ok(bytes)
}

// Opens an image; a refusal is answered as its number and figure.
pub fn opened(bytes: &[u8]) -> Result<(), (u32, usize)> {
    open(bytes).map_err(number_and_figure)?;
    Ok(())
}

// Writes an image, and answers its length; a refusal is answered as its number and figure.
pub fn written(
    program: &[u32],
    words: &[u32],
    depth: u32,
    bytes: &mut [u8],
) -> Result<usize, (u32, usize)> {
    write(program, words, depth, bytes).map_err(number_and_figure)
}

// The word at a place, 0 beyond the last.
pub fn word(bytes: &[u8], i: usize) -> u32 {
    let (words, _) = bytes.as_chunks();
    words.get(i).map_or(0, |word| u32::from_be_bytes(*word))
}

pub fn set_word(bytes: &mut [u8], i: usize, word: u32) {
    let (words, _) = bytes.as_chunks_mut();
    if let Some(place) = words.get_mut(i) {
        *place = word.to_be_bytes();
    }
}

// Makes the check of a block right.
fn seal(block: &mut [u8; 512]) {
    let (words, _) = block.as_chunks();
    let mut sum = 0u32;
    for (word, weight) in words.iter().zip((1..254).step_by(2)) {
        sum = sum.wrapping_add(u32::from_be_bytes(*word).wrapping_mul(weight));
    }
    set_word(block, 127, sum);
}

// Another word in a block, under a right check.
pub fn patch(bytes: &mut [u8], block: usize, i: usize, word: u32) {
    let (blocks, _) = bytes.as_chunks_mut();
    if let Some(block) = blocks.get_mut(block) {
        set_word(block, i, word);
        seal(block);
    }
}
