// A block memory as a data memory.
ghost use Rattle.std.specs.Prelude.{◌≡◌, ◌<◌, length, slice_set};
ghost use Rattle.memory.specs.Words.{WritesWord};
ghost use Rattle.image.specs.Format.{Contents};
ghost use Rattle.blocks.specs.Layout.{block_of, place_of, rewritten, with_words};
ghost use Rattle.blocks.specs.Memories.{words_of, words_few, Kept, frame_of, Stands};

use crate::block_memory::BlockMemory;
use memory::fault::NoWord;
use memory::meaning::DataMemory;

#[tactic(auto, using(crate::proofs::Standing::words_counted))]
impl<'a> DataMemory for BlockMemory<'a> {
    ghost words = { words_of };

    ghost few = { words_few };

    ghost Frame = { Kept };

    ghost frame = { frame_of };

    fn read(&mut self, address: u32) -> Result<u32, NoWord> {
        self.check_address(address)?;
        Ok(self.data_word(address as usize))
    }

    fn write(&mut self, address: u32, word: u32) -> Result<(), NoWord>
        ensures written { WritesWord words_of frame_of self.old self.new address word result }
        ensures bytes { address < length (words_of self.old) → self.new.bytes.now ≡
            rewritten self.old.bytes.now (block_of self.old.first address) (place_of address) word }
        ensures image { (c : Contents) → Stands self.old c →
            Stands self.new (with_words c (slice_set c.words address word)) }
    {
        self.check_address(address)?;
        self.change(address as usize, word);
        Ok(())
    }

    fn size(&self) -> u32 {
        self.size
    }
}
