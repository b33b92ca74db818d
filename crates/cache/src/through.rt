// One access through a cache, and through two, over any memory: what the memory below holds at the end.
ghost use Rattle.memory.specs.Words.{ReplacesWord};

use crate::cache::Cache;
use memory::fault::NoWord;
use memory::meaning::{DataMemory, replace};

/// Replaces a word through a cache, which is then flushed.
pub fn replace_through<M: DataMemory>(
    memory: &mut M,
    address: u32,
    word: u32,
) -> Result<u32, NoWord>
    ensures { ReplacesWord M.words M.frame memory.old memory.new address word result }
{
    let mut cache = Cache::new(memory);
    let old = replace(&mut cache, address, word);
    cache.flush();
    old
}

/// The same through a cache over a cache.
// Two functions, and not one that takes the inner step: that was tried, and its contract, five facts on the step's own cache,
// did not close.
pub fn replace_through_two<M: DataMemory>(
    memory: &mut M,
    address: u32,
    word: u32,
) -> Result<u32, NoWord>
    ensures { ReplacesWord M.words M.frame memory.old memory.new address word result }
{
    let mut cache = Cache::new(memory);
    let old = replace_through(&mut cache, address, word);
    cache.flush();
    old
}
