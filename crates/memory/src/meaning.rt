// What a data memory is: words at the addresses from 0 up to its size, at most 4,096 of them.
ghost use Rattle.std.specs.Prelude.{◌≡◌, ℕ, ◌<◌, ◌≤◌, List, length, OnOk, OnErr};
ghost use Rattle.memory.specs.Words.{ReadsWord, WritesWord, ReplacesWord};

use crate::fault::NoWord;

/// A data memory, by the words that it means.
pub trait DataMemory {
    // the words that it means
    ghost words: { Self → List ℕ };

    // there are at most 4,096; it stands above the calls, so that clauses can name it
    ghost few: { (m : Self) → length (words m) ≤ 4096 };

    // what it holds beside its words and no call changes: the loans, by their ghost names, and what else was lent
    ghost Frame: { Type 0 };

    ghost frame: { Self → Frame };

    /// The word at an address. The memory's words stay, but not always its inside: a cache takes the word into a line.
    fn read(&mut self, address: u32) -> Result<u32, NoWord>
        ensures { ReadsWord words frame self.old self.new address result };

    /// Puts another word at an address.
    // An address and a word are two arguments wherever they go together, since a struct would be taken apart in each body.
    fn write(&mut self, address: u32, word: u32) -> Result<(), NoWord>
        ensures { WritesWord words frame self.old self.new address word result };

    /// How many words there are.
    fn size(&self) -> u32
        ensures { result ≡ length (words self.now) };

    /// Refuses an address that has no word.
    fn check_address(&self, address: u32) -> Result<(), NoWord>
        ensures inside { OnOk result (address < length (words self.now)) }
        ensures outside { OnErr result (length (words self.now) ≤ address) }
    {
        if address < self.size() {
            Ok(())
        } else {
            Err(NoWord)
        }
    }
}

/// Puts a word at an address, and answers the one that stood there.
pub fn replace<M: DataMemory>(memory: &mut M, address: u32, word: u32) -> Result<u32, NoWord>
    ensures replaced { ReplacesWord M.words M.frame memory.old memory.new address word result }
    ensures refused { length (M.words memory.old) ≤ address → memory.new ≡ memory.old }
{
    let old = memory.read(address)?;
    memory.write(address, word)?;
    Ok(old)
}
