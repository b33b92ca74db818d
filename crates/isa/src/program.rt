// Programs: at most 1,024 words, each of which holds an instruction.
ghost use Rattle.std.specs.Prelude.{◌≡◌, MatchResult};
ghost use Rattle.refusal.specs.Refusals.{told};
ghost use Rattle.isa.specs.Refusals.{of_word, of_program};
ghost use Rattle.isa.specs.Words.{lawful};
ghost use Rattle.isa.specs.Programs.{measured, word_checked, checked, LawfulProgram, FirstUnlawful};

use crate::fault::{ProgramFault, WordFault};
use crate::instruction::Instruction;

/// The most words that a program has.
pub const LONGEST: usize = 1024;

/// The length of a program.
pub fn check_length(words: &[u32]) -> Result<(), ProgramFault>
    ensures { told of_program result ≡ measured words.now }
{
    if words.len() > LONGEST {
        return Err(ProgramFault::TooLong);
    }
    Ok(())
}

/// Whether a word holds an instruction.
#[tactic(auto, unfolding(crate::specs::Words::lawful))]
pub fn is_lawful(word: u32) -> bool
    ensures { result ≡ lawful word }
{
    Instruction::decode(word).is_ok()
}

/// One word at its place.
pub fn check_word(place: usize, word: u32) -> Result<(), WordFault>
    ensures { told of_word result ≡ word_checked place word }
{
    if is_lawful(word) {
        Ok(())
    } else {
        Err(WordFault { place, word })
    }
}

/// Each word in turn, up to the first that holds no instruction.
#[tactic(auto, using(crate::proofs::Programs::checked_lawful, crate::proofs::Programs::checked_unlawful))]
pub fn check_words(words: &[u32]) -> Result<(), WordFault>
    ensures answer { told of_word result ≡ checked words.now }
    ensures first { MatchResult result (λ _. LawfulProgram words.now) (λ f. FirstUnlawful words.now f.place f.word) }
{
    for (place, word) in words.iter().enumerate() {
        check_word(place, *word)?;
    }
    Ok(())
}
