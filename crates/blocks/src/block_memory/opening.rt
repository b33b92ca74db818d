// Making a block memory.
ghost use Rattle.std.specs.Prelude.{◌≡◌, Ok, Result};
ghost use Rattle.refusal.specs.Refusals.{Declined};
ghost use Rattle.image.specs.Format.{Contents};
ghost use Rattle.image.specs.Opening.{Opening};
ghost use Rattle.blocks.specs.Ranges.{Range, data_of};
ghost use Rattle.blocks.specs.Memories.{words_of, Stands};

use crate::block_memory::BlockMemory;
use image::opening::open;

// Where the data words stand in the bytes of an image: the first of their blocks, and how many there are. There are
// none in bytes that do not open.
#[derive(Clone, Copy)]
struct DataRange {
    first: usize,
    size: u32,
}

fn data_range(bytes: &[u8]) -> DataRange
    ensures { Range bytes.now result.first result.size }
{
    match open(bytes) {
        Ok(image) => DataRange {
            first: image.data_block(),
            size: image.data_size() as u32,
        },
        // a range without words, and not `None`: a block memory stands over these bytes too
        Err(_) => DataRange { first: 0, size: 0 },
    }
}

impl<'a> BlockMemory<'a> {
    /// A memory over the data words of an image; over bytes that do not open it has no words.
    pub fn new(bytes: &'a mut [u8]) -> BlockMemory<'a>
        ensures bytes { result.bytes ≡ bytes.entry }
        ensures words { (answer : Result Contents Declined) → Opening bytes.old answer →
            words_of result ≡ data_of answer }
        ensures stands { (c : Contents) → Opening bytes.old (Ok c) → Stands result c }
    {
        let DataRange { first, size } = data_range(bytes);
        BlockMemory { bytes, first, size }
    }
}
