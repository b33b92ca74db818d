// What a line of the cache holds: an address, and the word there.
#[derive(Clone, Copy, PartialEq, Eq, Debug)]
pub struct Line {
    pub address: u32,
    pub word: u32,
}
