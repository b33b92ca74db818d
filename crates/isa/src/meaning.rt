// What each instruction reads, writes and does. A missing operand has the value 0.
ghost use Rattle.std.specs.Prelude.{◌≡◌, IsFalse, IfSome, Some};
ghost use Rattle.isa.specs.Meanings.{is_jump, target_of, operands_of, following, early_value, executed_value, next_address, access_of};

use crate::instruction::Instruction;
use crate::register::Register;

/// The registers of an instruction's two operands, in the order a, b, c, or the values in those registers.
#[derive(Clone, Copy, PartialEq, Eq, Debug)]
pub struct Operands<T> {
    pub first: T,
    pub second: T,
}

/// What an instruction does at the data memory.
#[derive(Clone, Copy, PartialEq, Eq, Debug)]
pub enum Access {
    /// Reads the word at an address.
    Read(u32),
    /// At an address writes a word.
    Write(u32, u32),
}

impl Instruction {
    /// Whether the instruction may go elsewhere than to the following one.
    pub fn is_jump(self) -> bool
        ensures { result ≡ is_jump self }
    {
        matches!(self, Instruction::Jz(_, _))
    }

    /// The register that the instruction writes.
    pub fn target(self) -> Option<Register>
        ensures { result ≡ target_of self }
    {
        match self {
            Instruction::Loadc(a, _) => Some(a),
            Instruction::Loadpc(a) => Some(a),
            Instruction::Op(_, a, _, _) => Some(a),
            Instruction::Load(a, _) => Some(a),
            Instruction::Store(_, _) => None,
            Instruction::Jz(_, _) => None,
        }
    }

    /// The registers that the instruction reads.
    pub fn operands(self) -> Operands<Option<Register>>
        ensures { result ≡ operands_of self }
    {
        let (first, second) = match self {
            Instruction::Loadc(_, _) => (None, None),
            Instruction::Loadpc(_) => (None, None),
            Instruction::Op(_, _, b, c) => (Some(b), Some(c)),
            Instruction::Load(_, b) => (Some(b), None),
            Instruction::Store(a, b) => (Some(a), Some(b)),
            Instruction::Jz(a, b) => (Some(a), Some(b)),
        };
        Operands { first, second }
    }

    /// The value that is known from the instruction and its address alone.
    pub fn early_value(self, address: u32) -> Option<u32>
        ensures { result ≡ early_value self address }
    {
        match self {
            Instruction::Loadc(_, n) => Some(u32::from(n)),
            Instruction::Loadpc(_) => Some(address),
            _ => None,
        }
    }

    /// The value that is known once the instruction is executed: the early one, or that of the operation.
    pub fn executed_value(self, address: u32, values: Operands<u32>) -> Option<u32>
        ensures value { result ≡ executed_value self address values }
        ensures early { IfSome (early_value self address) (λ v. result ≡ Some v) }
    {
        let Operands { first, second } = values;
        match self {
            Instruction::Op(operation, _, _, _) => Some(operation.apply(first, second)),
            _ => self.early_value(address),
        }
    }

    /// The address of the instruction that follows.
    pub fn next_address(self, address: u32, values: Operands<u32>) -> u32
        ensures value { result ≡ next_address self address values }
        ensures straight { IsFalse (is_jump self) → result ≡ following address }
    {
        match self {
            Instruction::Jz(_, _) if values.first == 0 => values.second,
            _ => address.wrapping_add(1),
        }
    }

    /// What the instruction does at the data memory, if anything.
    pub fn access(self, values: Operands<u32>) -> Option<Access>
        ensures { result ≡ access_of self values }
    {
        match self {
            Instruction::Load(_, _) => Some(Access::Read(values.first)),
            Instruction::Store(_, _) => Some(Access::Write(values.first, values.second)),
            _ => None,
        }
    }
}
