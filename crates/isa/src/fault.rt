// Words that are no instructions, and the programs that hold them.
ghost use Rattle.std.specs.Prelude.{◌≡◌};
ghost use Rattle.isa.specs.Refusals.{of_unlawful, of_word, of_program};
ghost use Rattle.isa.specs.declared.fault.ProgramFault.TheVariants.{Word};

use refusal::Refusal;

/// A word that is no instruction.
#[derive(Clone, Copy, PartialEq, Eq, Debug)]
pub struct Unlawful {
    pub word: u32,
}

/// A word of a program that is no instruction, and its place there.
#[derive(Clone, Copy, PartialEq, Eq, Debug)]
pub struct WordFault {
    pub place: usize,
    pub word: u32,
}

/// Why words are no program.
#[derive(Clone, Copy, PartialEq, Eq, Debug)]
pub enum ProgramFault {
    /// More than 1,024 words.
    TooLong,
    /// A word that is no instruction.
    Word(WordFault),
}

// written out, since a derived `From` says nothing of what it makes
impl From<WordFault> for ProgramFault {
    ghost from_gives = { λ w p. p ≡ Word w };

    fn from(fault: WordFault) -> ProgramFault {
        ProgramFault::Word(fault)
    }
}

impl Refusal for Unlawful {
    ghost declined = { of_unlawful };

    fn number(&self) -> u32 {
        3
    }

    fn figure(&self) -> usize {
        self.word as usize
    }
}

impl Refusal for WordFault {
    ghost declined = { of_word };

    fn number(&self) -> u32 {
        3
    }

    fn figure(&self) -> usize {
        self.place
    }
}

impl Refusal for ProgramFault {
    ghost declined = { of_program };

    fn number(&self) -> u32 {
        match self {
            ProgramFault::TooLong => 1,
            ProgramFault::Word(fault) => fault.number(),
        }
    }

    fn figure(&self) -> usize {
        match self {
            ProgramFault::TooLong => 0,
            ProgramFault::Word(fault) => fault.figure(),
        }
    }
}
