// A cache as a data memory.
ghost use Rattle.std.specs.Prelude.{ℕ, slice_index};
ghost use Rattle.memory.specs.Words.{ReadsWord, WritesWord};
ghost use Rattle.cache.specs.Lines.{over_few};
ghost use Rattle.cache.specs.Caches.{words_of, frame_of, Accessed};

use crate::cache::Cache;
use memory::fault::NoWord;
use memory::meaning::DataMemory;

#[tactic(auto, using(crate::specs::Lines::length_over, crate::proofs::Caches::accessed_outside))]
impl<'a, M: DataMemory> DataMemory for Cache<'a, M> {
    ghost words = { words_of M.words };

    ghost few = { λ c. over_few c.lines (M.words c.below.now) (M.few c.below.now) };

    ghost Frame = { ℕ × M.Frame };

    ghost frame = { frame_of M.frame };

    fn read(&mut self, address: u32) -> Result<u32, NoWord>
        ensures read { ReadsWord (words_of M.words) (frame_of M.frame) self.old self.new address result }
        ensures lines { Accessed M.words self.old self.new address (slice_index (words_of M.words self.old) address) }
    {
        self.check_address(address)?;
        if let Some(word) = self.held(address) {
            return Ok(word);
        }
        let word = self.below.read(address)?;
        self.make_room(address);
        self.lay(address, word);
        Ok(word)
    }

    fn write(&mut self, address: u32, word: u32) -> Result<(), NoWord>
        ensures written { WritesWord (words_of M.words) (frame_of M.frame) self.old self.new address word result }
        ensures lines { Accessed M.words self.old self.new address word }
    {
        self.check_address(address)?;
        self.make_room(address);
        self.lay(address, word);
        Ok(())
    }

    fn size(&self) -> u32 {
        self.below.size()
    }
}
