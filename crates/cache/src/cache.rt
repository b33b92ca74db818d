// Sixteen lines over a memory, each empty or holding an address and its word.
ghost use Rattle.std.specs.Prelude.{◌≡◌, length};
ghost use Rattle.cache.specs.Lines.{Placed};

use crate::line::Line;

const LINES: usize = 16;

/// A cache over a memory.
#[derive(Drop)]
pub struct Cache<'a, M> {
    below: &'a mut M,
    lines: [Option<Line>; LINES],
    // beside the array's type, so that proofs of other crates know it too
    ghost sized: { length lines ≡ 16 },
    ghost placed: { Placed lines },
}

pub mod access;
pub mod upkeep;
