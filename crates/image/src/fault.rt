// Why bytes are no image.
ghost use Rattle.std.specs.Prelude.{◌≡◌};
ghost use Rattle.image.specs.declared.fault.ImageFault.TheVariants.{Block, Program};
ghost use Rattle.image.specs.Faults.{of_block, of_image};

use crate::block::BlockFault;
use isa::fault::ProgramFault;
use refusal::Refusal;

/// Why bytes are no image.
#[derive(Clone, Copy, PartialEq, Eq, Debug)]
pub enum ImageFault {
    /// No whole number of blocks, none, or too many.
    Length,
    /// A block's number or check is wrong.
    Block(BlockFault),
    /// The lengths or the depth are out of range, or do not go with the number of blocks.
    Counts,
    /// A word of the program is no instruction.
    Program(ProgramFault),
}

// written out, as the next one is, since a derived `From` says nothing of what it makes
impl From<BlockFault> for ImageFault {
    ghost from_gives = { λ b i. i ≡ Block b };

    fn from(fault: BlockFault) -> ImageFault {
        ImageFault::Block(fault)
    }
}

impl From<ProgramFault> for ImageFault {
    ghost from_gives = { λ p i. i ≡ Program p };

    fn from(fault: ProgramFault) -> ImageFault {
        ImageFault::Program(fault)
    }
}

impl Refusal for BlockFault {
    ghost declined = { of_block };

    fn number(&self) -> u32 {
        15
    }

    fn figure(&self) -> usize {
        self.block
    }
}

impl Refusal for ImageFault {
    ghost declined = { of_image };

    fn number(&self) -> u32 {
        match self {
            ImageFault::Length => 14,
            ImageFault::Block(fault) => fault.number(),
            ImageFault::Counts => 16,
            ImageFault::Program(fault) => fault.number(),
        }
    }

    fn figure(&self) -> usize {
        match self {
            ImageFault::Length => 0,
            ImageFault::Block(fault) => fault.figure(),
            ImageFault::Counts => 0,
            ImageFault::Program(fault) => fault.figure(),
        }
    }
}
