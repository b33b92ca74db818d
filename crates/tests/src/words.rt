// Instruction words.
use isa::fault::{Unlawful, WordFault};
use isa::instruction::{Instruction, clear_spare_bits};
use isa::meaning::{Access, Operands};
use isa::operation::Operation;
use isa::program::{check_length, check_words};
use isa::register::Register;
use refusal::Refusal;
use std::process::Abort;
use std::test::Fail;

fn reads(rt: &impl Abort, word: u32, instruction: Instruction) {
    assert_eq!(rt; Instruction::decode(word), Ok(instruction));
    assert_eq!(rt; Instruction::try_from(word), Ok(instruction));
    assert_eq!(rt; u32::from(instruction), word);
}

#[test]
fn words_of_each_kind(rt: HostRuntime) {
    let r1 = Register::of_low_bits(1);
    let r2 = Register::of_low_bits(2);
    let r3 = Register::of_low_bits(3);
    let r4 = Register::of_low_bits(4);
    reads(&rt, 0x1100_0005, Instruction::Loadc(r1, 5));
    reads(&rt, 0x2100_0000, Instruction::Loadpc(r1));
    reads(
        &rt,
        0x3312_0000,
        Instruction::Op(Operation::Add, r3, r1, r2),
    );
    reads(&rt, 0x4120_0000, Instruction::Load(r1, r2));
    reads(&rt, 0x5340_0000, Instruction::Store(r3, r4));
    reads(&rt, 0x6120_0000, Instruction::Jz(r1, r2));
}

#[test]
fn unlawful_words(rt: HostRuntime) {
    for word in [
        0u32,
        0x3312_0008,
        0x3312_000f,
        0x7000_0000,
        0xf000_0000,
        0xffff_ffff,
    ] {
        assert_eq!(rt; Instruction::decode(word), Err(Unlawful { word }));
    }
}

#[test]
fn spare_bits_are_cleared(rt: HostRuntime) {
    let words = [
        (0x11ff_0005u32, 0x1100_0005u32),
        (0x21ff_ffff, 0x2100_0000),
        (0x3312_fff7, 0x3312_0007),
        (0x41ff_ffff, 0x41f0_0000),
        (0x5fff_ffff, 0x5ff0_0000),
        (0x6123_4567, 0x6120_0000),
    ];
    for (given, cleared) in words {
        assert_eq!(rt; clear_spare_bits(given), Ok(cleared));
    }
}

#[test]
fn operations(rt: HostRuntime) {
    let values = [
        (Operation::Add, 0xffff_ffffu32, 2u32, 1u32),
        (Operation::Sub, 1, 2, 0xffff_ffff),
        (Operation::And, 0b1100, 0b1010, 0b1000),
        (Operation::Or, 0b1100, 0b1010, 0b1110),
        (Operation::Xor, 0b1100, 0b1010, 0b0110),
        (Operation::ShiftLeft, 1, 31, 0x8000_0000),
        (Operation::ShiftLeft, 1, 32, 0),
        (Operation::ShiftLeft, 3, 31, 0x8000_0000),
        (Operation::ShiftRight, 0x8000_0000, 31, 1),
        (Operation::ShiftRight, 0xffff_ffff, 32, 0),
        (Operation::ShiftRight, 0xffff_ffff, 0xffff_ffff, 0),
        (Operation::Less, 0xffff_ffff, 0, 1),
        (Operation::Less, 0, 0xffff_ffff, 0),
        (Operation::Less, 0x8000_0000, 0x7fff_ffff, 1),
        (Operation::Less, 5, 5, 0),
    ];
    for (operation, b, c, value) in values {
        assert_eq!(rt; operation.apply(b, c), value);
    }
    assert_eq!(rt; u32::from(Operation::Less), 7);
}

fn values(first: u32, second: u32) -> Operands<u32> {
    Operands { first, second }
}

#[test]
fn meanings(rt: HostRuntime) {
    let r1 = Register::of_low_bits(1);
    let r2 = Register::of_low_bits(2);
    let jump = Instruction::Jz(r1, r2);
    assert_eq!(rt; jump.next_address(7, values(0, 40)), 40);
    assert_eq!(rt; jump.next_address(7, values(1, 40)), 8);
    assert_eq!(rt; jump.target(), None);
    assert_eq!(rt;
        jump.operands(),
        Operands {
            first: Some(r1),
            second: Some(r2),
        }
    );
    assert_eq!(rt; Instruction::Loadpc(r1).early_value(9), Some(9));
    assert_eq!(rt;
        Instruction::Load(r1, r2).executed_value(9, values(4, 0)),
        None
    );
    assert_eq!(rt;
        Instruction::Store(r1, r2).access(values(4, 6)),
        Some(Access::Write(4, 6))
    );
    assert_eq!(rt; Register::new(16), None);
    assert_eq!(rt; u8::from(r2), 2);
}

#[test]
fn the_first_unlawful_word(rt: HostRuntime) {
    assert_eq!(rt;
        check_words(&[0x1100_0005, 0x3312_0008, 0]),
        Err(WordFault {
            place: 1,
            word: 0x3312_0008,
        })
    );
    assert_eq!(rt; check_words(&[0x1100_0005]), Ok(()));
    assert_eq!(rt; check_words(&[]), Ok(()));
}

#[test]
fn the_longest_program(rt: HostRuntime) -> Result<(), Fail> {
    let longest = vec![in rt.alloc(); 0u32; 1024]?;
    let longer = vec![in rt.alloc(); 0u32; 1025]?;
    assert_eq!(rt; check_length(longest.as_slice()), Ok(()));
    match check_length(longer.as_slice()) {
        Ok(()) => Err(Fail::new("1,025 words")),
        Err(fault) => {
            assert_eq!(rt; fault.number(), 1);
            Ok(())
        },
    }
}
