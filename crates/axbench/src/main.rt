// axbench: reads an image from standard input, and prints one line on it.
#![tactic(auto)]

use host::report;
use image::layout::LONGEST_IMAGE;
use std::io::{self, Read, Write};

// One byte more than the longest image has: input that reaches it is too long, whatever follows.
const MOST_INPUT: u64 = LONGEST_IMAGE as u64 + 1;

fn main(rt: HostRuntime) -> io::Result<()> {
    let mut image = Vec::new(rt.alloc());
    rt.stdin().take(MOST_INPUT).read_to_end(&mut image)?;
    let line = report(&image);
    rt.stdout().write_all(line.as_bytes())
}
