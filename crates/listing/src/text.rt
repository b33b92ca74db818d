// A text of at most 512 bytes. What does not fit is dropped.
ghost use Rattle.std.specs.Prelude.{◌≡◌, ◌≤◌, [], ◌∷◌, ◌++◌, length, decimal};
ghost use Rattle.listing.specs.Texts.{clipped};

use arrayvec::ArrayVec;
use itoa::Buffer;
use std::marker::Model;

/// Bytes to be printed, at most 512.
#[derive(Drop)]
pub struct Text {
    bytes: ArrayVec<u8, 512>,
}

impl Model for Text {
    ghost use Rattle.std.specs.Prelude.{ℕ, List};

    ghost Value = { List ℕ };

    ghost view = { λ t. t.bytes.items };
}

impl Text {
    /// No bytes yet.
    pub fn new() -> Text
        ensures { result ≡ [] }
    {
        Text {
            bytes: ArrayVec::new(),
        }
    }

    /// One byte more.
    #[tactic(auto, using(crate::proofs::Clips::one_more))]
    pub fn push(&mut self, byte: u8)
        ensures { self.new ≡ clipped (self.old ++ byte ∷ []) }
    {
        let _ = self.bytes.try_push(byte);
    }

    /// More bytes.
    #[tactic(auto, using(std::proofs::lemmas::Grind::common_steps, crate::proofs::Clips::clipped_part))]
    pub fn push_all(&mut self, bytes: &[u8])
        ensures { self.new ≡ clipped (self.old ++ bytes.now) }
    {
        let fits = self.bytes.remaining_capacity().min(bytes.len());
        let _ = self.bytes.try_extend_from_slice(&bytes[..fits]);
    }

    /// A number in decimal.
    #[tactic(auto, using(std::proofs::lemmas::Fmt::decimal_digit))]
    pub fn push_number(&mut self, number: usize)
        ensures { self.new ≡ clipped (self.old ++ decimal number) }
    {
        // one digit needs no buffer
        if number < 10 {
            self.push(b'0' + number as u8);
        } else {
            self.push_all(Buffer::new().format(number).as_bytes());
        }
    }

    /// The bytes.
    pub fn as_bytes(&self) -> &[u8]
        ensures value { result.now ≡ self.now }
        ensures fits { length result.now ≤ 512 }
    {
        self.bytes.as_slice()
    }
}
