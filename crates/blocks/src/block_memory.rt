// A data memory over the bytes of an image.
ghost use Rattle.std.specs.Prelude.{◌+◌, ◌*◌, ◌≤◌, length};
ghost use Rattle.image.specs.Blocks.{pages};
ghost use Rattle.blocks.specs.Layout.{Checked};

/// A memory over the data words of an image.
#[derive(Drop)]
pub struct BlockMemory<'a> {
    bytes: &'a mut [u8],
    // the first block of the data words, and how many there are: not one range, since most of what is said here is of one of them
    first: usize,
    size: u32,
    ghost few: { size ≤ 4096 },
    ghost within: { 512 * (first + pages size) ≤ length bytes.now },
    ghost checked: { Checked first size bytes.now },
}

pub mod access;
pub mod opening;
mod words;
