// Opening bytes as an image.
ghost use Rattle.std.specs.Prelude.{◌≡◌, ◌↔◌, IsTrue, MatchResult};
ghost use Rattle.isa.specs.Programs.{LawfulProgram, FirstUnlawful};
ghost use Rattle.image.specs.Format.{program_in};
ghost use Rattle.image.specs.Whole.{RightLength, RightCounts};
ghost use Rattle.image.specs.Opening.{Opening, outcome, AtWord};

use crate::block::check_blocks;
use crate::fault::ImageFault;
use crate::layout::{BLOCK_BYTES, Header, LARGEST_DATA, LONGEST_IMAGE, is_depth, place_from};
pub use crate::opened::Image;
use crate::words::read_word;
use isa::fault::ProgramFault;
use isa::program::{LONGEST, check_word};

fn has_right_length(bytes: &[u8]) -> bool
    ensures { IsTrue result ↔ RightLength bytes.now }
{
    let len = bytes.len();
    0 < len && len <= LONGEST_IMAGE && len % BLOCK_BYTES == 0
}

fn check_counts(bytes: &[u8]) -> Result<(), ImageFault>
    requires { RightLength bytes.now }
    ensures { MatchResult result (λ _. RightCounts bytes.now)
        (λ f. (f ≡ ImageFault.Counts) × (RightCounts bytes.now → ⊥)) }
{
    let header = Header::read(bytes);
    let in_range = header.program_len as usize <= LONGEST
        && header.data_size as usize <= LARGEST_DATA
        && is_depth(header.depth);
    if in_range && bytes.len() == BLOCK_BYTES * header.blocks() {
        Ok(())
    } else {
        Err(ImageFault::Counts)
    }
}

// Each word of the program in turn, up to the first that holds no instruction. It is no call of `check_words`, which takes words
// that lie one after another; one function for both would take an iterator, and ask that it end.
fn check_program(bytes: &[u8]) -> Result<(), ProgramFault>
    requires long { RightLength bytes.now }
    requires counts { RightCounts bytes.now }
    ensures { MatchResult result (λ _. LawfulProgram (program_in bytes.now))
        (λ f. AtWord f (λ w. FirstUnlawful (program_in bytes.now) w.place w.word)) }
{
    let len = Header::read(bytes).program_len as usize;
    // by places, which a fault names
    for place in 0..len {
        check_word(place, read_word(bytes, place_from(1, place)))?;
    }
    Ok(())
}

/// The image that the bytes hold, or the first fault in the order length, blocks, counts, program.
pub fn open(bytes: &[u8]) -> Result<Image<'_>, ImageFault>
    ensures { Opening bytes.now (outcome result) }
{
    if !has_right_length(bytes) {
        return Err(ImageFault::Length);
    }
    check_blocks(bytes)?;
    check_counts(bytes)?;
    check_program(bytes)?;
    Ok(Image { bytes })
}
