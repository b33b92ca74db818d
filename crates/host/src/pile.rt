// The memories of a run, put together: a cache over the block memory over the caller's bytes, a function to each layer.
ghost use Rattle.refusal.specs.Refusals.{told};
ghost use Rattle.memory.specs.Refusals.{of_no_word};
ghost use Rattle.blocks.specs.Patches.{Replaced};

use blocks::block_memory::BlockMemory;
use cache::through::replace_through;
use memory::fault::NoWord;

/// Puts a word at a data address of the image, through a cache that is flushed, and answers the one that stood there.
// `replace_in_image` does it without the cache, and says there why the two are apart.
pub fn replace_data_word(bytes: &mut [u8], address: u32, word: u32) -> Result<u32, NoWord>
    ensures { Replaced bytes.old bytes.new address word (told of_no_word result) }
{
    let mut memory = BlockMemory::new(bytes);
    replace_through(&mut memory, address, word)
}
