// The eight operations on two words.
ghost use Rattle.std.specs.Prelude.{◌≡◌};
ghost use Rattle.isa.specs.Operations.{operation_at, code_of, applied};

/// An operation on two words.
#[derive(Clone, Copy, PartialEq, Eq, Debug)]
pub enum Operation {
    Add,
    Sub,
    And,
    Or,
    Xor,
    ShiftLeft,
    ShiftRight,
    Less,
}

impl Operation {
    /// The operation that the three lowest bits name.
    // It is not `From`, since it drops bits.
    pub fn of_low_bits(bits: u32) -> Operation
        ensures { result ≡ operation_at bits }
    {
        match bits % 8 {
            0 => Operation::Add,
            1 => Operation::Sub,
            2 => Operation::And,
            3 => Operation::Or,
            4 => Operation::Xor,
            5 => Operation::ShiftLeft,
            6 => Operation::ShiftRight,
            7.. => Operation::Less,
        }
    }

    /// Its code, from 0 to 7.
    pub fn code(self) -> u32
        ensures { result ≡ code_of self }
    {
        self as u32
    }

    /// What the operation makes of two words.
    pub fn apply(self, b: u32, c: u32) -> u32
        ensures { result ≡ applied self b c }
    {
        match self {
            Operation::Add => b.wrapping_add(c),
            Operation::Sub => b.wrapping_sub(c),
            Operation::And => b & c,
            Operation::Or => b | c,
            Operation::Xor => b ^ c,
            Operation::ShiftLeft => b.checked_shl(c).unwrap_or(0),
            Operation::ShiftRight => b.checked_shr(c).unwrap_or(0),
            Operation::Less => u32::from(b.cast_signed() < c.cast_signed()),
        }
    }
}

impl From<Operation> for u32 {
    ghost from_gives = { λ operation code. code ≡ code_of operation };

    fn from(operation: Operation) -> u32 {
        operation.code()
    }
}
