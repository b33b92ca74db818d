// An address that has no word.
ghost use Rattle.memory.specs.Refusals.{of_no_word};

use refusal::Refusal;

/// The address is not below the memory's size.
#[derive(Clone, Copy, PartialEq, Eq, Debug)]
pub struct NoWord;

impl Refusal for NoWord {
    ghost declined = { of_no_word };

    fn number(&self) -> u32 {
        13
    }

    fn figure(&self) -> usize {
        0
    }
}
