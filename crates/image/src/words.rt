// Big-endian words in bytes. Reading one and writing one ask that its bytes be there, and have no more in common.
ghost use Rattle.std.specs.Prelude.{◌≡◌, ◌+◌, ◌*◌, ◌≤◌, length};
ghost use Rattle.image.specs.Words.{word_at, put_word};

// The word with the number i.
pub(crate) fn read_word(bytes: &[u8], i: usize) -> u32
    requires { 4 * i + 4 ≤ length bytes.now }
    ensures { result ≡ word_at bytes.now i }
{
    let (words, _) = bytes.as_chunks::<4>();
    u32::from_be_bytes(words[i])
}

// Another word there.
#[tactic(auto, using(crate::proofs::Bytes::copied_word))]
pub(crate) fn write_word(bytes: &mut [u8], i: usize, word: u32)
    requires { 4 * i + 4 ≤ length bytes.old }
    ensures { bytes.new ≡ put_word bytes.old i word }
{
    bytes[4 * i..4 * i + 4].copy_from_slice(&word.to_be_bytes());
}
