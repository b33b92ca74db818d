// Writing an image into the caller's bytes.
ghost use Rattle.std.specs.Prelude.{◌≡◌, length, take, IfOk, Ok};
ghost use Rattle.refusal.specs.Refusals.{told};
ghost use Rattle.isa.specs.declared.fault.ProgramFault.TheVariants.{Word};
ghost use Rattle.image.specs.Opening.{Opening};
ghost use Rattle.image.specs.Writing.{of_write, write_fault, Writing, given, left_by};

use crate::draft::Draft;
use crate::layout::BLOCK_BYTES;
use isa::fault::{ProgramFault, WordFault};
use refusal::Refusal;

/// Why an image cannot be written.
#[derive(Clone, Copy, PartialEq, Eq, Debug)]
pub enum WriteFault {
    /// More than 1,024 words.
    ProgramTooLong,
    /// The depth is not 1 to 8.
    Depth,
    /// More than 4,096 data words.
    TooMuchData,
    /// The word at a place of the program is no instruction.
    Unlawful(usize),
    /// The caller's bytes are fewer than the image's.
    NoSpace,
}

// written out, as the next one is, since a derived `From` says nothing of what it makes
impl From<ProgramFault> for WriteFault {
    ghost from_gives = { λ p w. w ≡ write_fault p };

    fn from(fault: ProgramFault) -> WriteFault {
        match fault {
            ProgramFault::TooLong => WriteFault::ProgramTooLong,
            ProgramFault::Word(word) => WriteFault::from(word),
        }
    }
}

impl From<WordFault> for WriteFault {
    ghost from_gives = { λ f w. w ≡ write_fault (Word f) };

    fn from(fault: WordFault) -> WriteFault {
        WriteFault::Unlawful(fault.place)
    }
}

impl Refusal for WriteFault {
    ghost declined = { of_write };

    fn number(&self) -> u32 {
        match self {
            WriteFault::ProgramTooLong => 1,
            WriteFault::Depth => 2,
            WriteFault::TooMuchData => 16,
            WriteFault::Unlawful(_) => 3,
            WriteFault::NoSpace => 17,
        }
    }

    fn figure(&self) -> usize {
        match self {
            WriteFault::Unlawful(place) => *place,
            _ => 0,
        }
    }
}

/// Writes the image of a program, data words and a depth, and answers its length. Bytes beyond it stay; a refusal
/// changes none.
pub fn write(
    program: &[u32],
    words: &[u32],
    depth: u32,
    bytes: &mut [u8],
) -> Result<usize, WriteFault>
    ensures answer { Writing program.now words.now depth (length bytes.old) (told of_write result) }
    ensures after { bytes.new ≡ left_by result (given program.now words.now depth) bytes.old }
    ensures opens { IfOk result (λ n. Opening (take n bytes.new) (Ok (given program.now words.now depth))) }
{
    let draft = Draft::new(program, words, depth)?;
    let len = BLOCK_BYTES * draft.blocks();
    if bytes.len() < len {
        return Err(WriteFault::NoSpace);
    }
    draft.write_words(bytes);
    Ok(len)
}
