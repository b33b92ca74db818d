// Making a cache, looking at its lines, and writing its words down.
ghost use Rattle.std.specs.Prelude.{◌≡◌, ◌%◌, IsTrue};
ghost use Rattle.cache.specs.Lines.{line, empty_lines, line_of, holds, word_held, laid, down, yielded};
ghost use Rattle.cache.specs.Caches.{words_below, words_of, WritesDown};

use crate::cache::{Cache, LINES};
use crate::line::Line;
use memory::meaning::DataMemory;

// The number of the line of an address.
fn line_number(address: u32) -> usize
    ensures { result ≡ address % 16 }
{
    address as usize % LINES
}

impl<'a, M: DataMemory> Cache<'a, M> {
    /// A cache whose lines are empty.
    #[tactic(auto, using(crate::proofs::Lines::over_empty))]
    pub fn new(below: &'a mut M) -> Cache<'a, M>
        ensures below { result.below ≡ below.entry }
        ensures lines { result.lines ≡ empty_lines }
        ensures words { words_of M.words result ≡ M.words below.old }
    {
        Cache {
            below,
            lines: [None; LINES],
        }
    }

    /// What the line of an address holds.
    pub fn line(&self, address: u32) -> Option<Line>
        ensures { result ≡ line_of self.now.lines address }
    {
        self.lines[line_number(address)]
    }

    // The word that the line of an address holds for it.
    pub(crate) fn held(&self, address: u32) -> Option<u32>
        ensures { result ≡ word_held (line_of self.now.lines address) address }
    {
        self.line(address)
            .filter(|line| line.address == address)
            .map(|line| line.word)
    }

    // Takes an address and its word into their line.
    pub(crate) fn lay(&mut self, address: u32, word: u32)
        ensures lines { self.new.lines ≡ laid self.old.lines address word }
        ensures here { line_of self.new.lines address ≡ line address word }
        ensures below { self.new.below ≡ self.old.below }
    {
        self.lines[line_number(address)] = Some(Line { address, word });
    }

    // Writes down what a line holds.
    fn write_down(&mut self, line: Option<Line>)
        ensures { WritesDown M.words M.frame self.old self.new (down line (words_below M.words self.old)) }
    {
        if let Some(line) = line {
            let _ = self.below.write(line.address, line.word);
        }
    }

    // Lets the line of an address yield to it: what it holds of another one is written down.
    pub(crate) fn make_room(&mut self, address: u32)
        ensures down { WritesDown M.words M.frame self.old self.new
            (yielded (line_of self.old.lines address) address (words_below M.words self.old)) }
        ensures hit { IsTrue (holds (line_of self.old.lines address) address) → self.new.below ≡ self.old.below }
    {
        if self.held(address).is_none() {
            self.write_down(self.line(address));
        }
    }

    /// Writes all held words down, and keeps the lines.
    pub fn flush(&mut self)
        ensures down { WritesDown M.words M.frame self.old self.new (words_of M.words self.old) }
        ensures kept { words_of M.words self.new ≡ words_of M.words self.old }
    {
        for line in self.lines {
            self.write_down(line);
        }
    }
}
