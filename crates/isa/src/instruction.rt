// Instructions and the words that hold them.
ghost use Rattle.std.specs.Prelude.{◌≡◌, ◌%◌, ◌^◌, ◌<◌, Some};
ghost use Rattle.refusal.specs.Refusals.{told};
ghost use Rattle.isa.specs.Refusals.{of_unlawful};
ghost use Rattle.isa.specs.Words.{kind_of, a_of, b_of, c_of, packed, read, decoded, encoded, recoded};

use crate::fault::Unlawful;
use crate::operation::Operation;
use crate::register::Register;

/// An instruction.
#[derive(Clone, Copy, PartialEq, Eq, Debug)]
pub enum Instruction {
    /// `a` becomes the number.
    Loadc(Register, u16),
    /// `a` becomes the instruction's own address.
    Loadpc(Register),
    /// `a` becomes the operation applied to `b` and `c`.
    Op(Operation, Register, Register, Register),
    /// `a` becomes the data word at address `b`.
    Load(Register, Register),
    /// The data word at address `a` becomes `b`.
    Store(Register, Register),
    /// If `a` is 0 the next address is `b`.
    Jz(Register, Register),
}

impl Instruction {
    /// The instruction that a word holds. Spare bits are ignored.
    pub fn decode(word: u32) -> Result<Instruction, Unlawful>
        ensures { told of_unlawful result ≡ read word }
    {
        let a = Register::of_low_bits(word >> 24);
        let b = Register::of_low_bits(word >> 20);
        let c = Register::of_low_bits(word >> 16);
        match word >> 28 {
            1 => Ok(Instruction::Loadc(a, (word % 0x1_0000) as u16)),
            2 => Ok(Instruction::Loadpc(a)),
            3 if word % 16 < 8 => Ok(Instruction::Op(Operation::of_low_bits(word), a, b, c)),
            4 => Ok(Instruction::Load(a, b)),
            5 => Ok(Instruction::Store(a, b)),
            6 => Ok(Instruction::Jz(a, b)),
            0 | 3 | 7.. => Err(Unlawful { word }),
        }
    }

    /// The word that holds the instruction, its spare bits 0.
    pub fn encode(self) -> u32
        ensures value { result ≡ encoded self }
        ensures reads_back { decoded result ≡ Some self }
    {
        // fills the register fields that a kind does not use
        let r0 = Register::of_low_bits(0);
        match self {
            Instruction::Loadc(a, n) => pack(1, a, r0, r0, n),
            Instruction::Loadpc(a) => pack(2, a, r0, r0, 0),
            Instruction::Op(operation, a, b, c) => pack(3, a, b, c, operation as u16),
            Instruction::Load(a, b) => pack(4, a, b, r0, 0),
            Instruction::Store(a, b) => pack(5, a, b, r0, 0),
            Instruction::Jz(a, b) => pack(6, a, b, r0, 0),
        }
    }
}

// The word with these fields. The kind is a number here, since that is what stands in the word.
#[tactic(auto, unfolding(crate::specs::Words::packed))]
fn pack(kind: u32, a: Register, b: Register, c: Register, n: u16) -> u32
    requires { kind < 16 }
    ensures value { result ≡ packed kind a b c n }
    ensures kind { kind_of result ≡ kind }
    ensures a { a_of result ≡ a }
    ensures b { b_of result ≡ b }
    ensures c { c_of result ≡ c }
    ensures n { result % 2 ^ 16 ≡ n }
{
    (kind << 28)
        + (u32::from(a.number()) << 24)
        + (u32::from(b.number()) << 20)
        + (u32::from(c.number()) << 16)
        + u32::from(n)
}

impl TryFrom<u32> for Instruction {
    type Error = Unlawful;

    ghost try_from_gives = { λ word r. told of_unlawful r ≡ read word };

    fn try_from(word: u32) -> Result<Instruction, Unlawful> {
        Instruction::decode(word)
    }
}

impl From<Instruction> for u32 {
    ghost from_gives = { λ i word. (word ≡ encoded i) × (decoded word ≡ Some i) };

    fn from(instruction: Instruction) -> u32 {
        instruction.encode()
    }
}

/// The word with its spare bits 0.
#[tactic(auto, unfolding(crate::specs::Words::lawful, crate::specs::Words::packed))]
pub fn clear_spare_bits(word: u32) -> Result<u32, Unlawful>
    ensures { told of_unlawful result ≡ recoded word }
{
    Ok(Instruction::decode(word)?.encode())
}
