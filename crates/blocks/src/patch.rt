// Replacing a data word in the bytes of an image.
ghost use Rattle.refusal.specs.Refusals.{told};
ghost use Rattle.memory.specs.Refusals.{of_no_word};
ghost use Rattle.blocks.specs.Patches.{Replaced};

use crate::block_memory::BlockMemory;
use memory::fault::NoWord;
use memory::meaning::replace;

/// Puts a word at a data address of the image, and answers the one that stood there.
// The pile of the host does the same through a cache; a function for both would be public, and would ask what its step does.
pub fn replace_in_image(bytes: &mut [u8], address: u32, word: u32) -> Result<u32, NoWord>
    ensures { Replaced bytes.old bytes.new address word (told of_no_word result) }
{
    let mut memory = BlockMemory::new(bytes);
    replace(&mut memory, address, word)
}
