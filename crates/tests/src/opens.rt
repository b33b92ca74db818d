// Opening: every refusal, in its order.
use crate::bytes::*;
use image::fault::ImageFault;
use image::opening::open;
use isa::fault::{ProgramFault, WordFault};
use std::test::Fail;

#[test]
fn wrong_lengths(rt: HostRuntime) -> Result<(), Fail> {
    for len in [0usize, 1, 511, 513, 22015, 22017, 22528] {
        let bytes = vec![in rt.alloc(); 0u8; len]?;
        assert_eq!(rt; opened(&bytes), Err((14, 0)));
    }
    Ok(())
}

#[test]
fn damaged_blocks(rt: HostRuntime) -> Result<(), Fail> {
    let heap = rt.alloc();
    let good = image_of(heap, &[LOADC, LOADC], &[1, 2, 3], 2)?;
    assert_eq!(rt; opened(&good), Ok(()));
    for (block, i) in [
        (0usize, 0usize),
        (0, 1),
        (0, 126),
        (1, 0),
        (1, 2),
        (2, 3),
        (2, 127),
    ] {
        let mut bytes = good.clone()?;
        let at = 128 * block + i;
        let old = word(&bytes, at);
        set_word(&mut bytes, at, old ^ 0x0100_0000);
        assert_eq!(rt; opened(&bytes), Err((15, block)));
    }
    // a wrong number under a right check
    let mut bytes = good.clone()?;
    patch(&mut bytes, 1, 0, 2);
    assert_eq!(rt; opened(&bytes), Err((15, 1)));
    Ok(())
}

#[test]
fn wrong_counts(rt: HostRuntime) -> Result<(), Fail> {
    let heap = rt.alloc();
    let good = image_of(heap, &[LOADC], &[1], 2)?;
    // the word of block 0, and what stands there: each too large, the depth 0 and 9, a block too few and too many
    for (i, count) in [
        (1usize, 1025u32),
        (2, 4097),
        (3, 0),
        (3, 9),
        (1, 127),
        (2, 127),
        (1, 0),
        (2, 0),
        (1, 0xffff_ffff),
        (2, 0xffff_ffff),
    ] {
        let mut bytes = good.clone()?;
        patch(&mut bytes, 0, i, count);
        assert_eq!(rt; opened(&bytes), Err((16, 0)));
    }
    // another count of the same blocks opens
    let mut bytes = good.clone()?;
    patch(&mut bytes, 0, 2, 126);
    assert_eq!(rt; opened(&bytes), Ok(()));
    Ok(())
}

#[test]
fn unlawful_words_by_place(rt: HostRuntime) -> Result<(), Fail> {
    let heap = rt.alloc();
    let program = vec![in heap; LOADC; 127]?;
    let mut bytes = image_of(heap, &program, &[], 1)?;
    patch(&mut bytes, 2, 1, 0x3312_0008);
    assert_eq!(rt; opened(&bytes), Err((3, 126)));
    patch(&mut bytes, 1, 126, 0x7000_0000);
    let fault = WordFault {
        place: 125,
        word: 0x7000_0000,
    };
    assert_eq!(rt;
        open(&bytes).err(),
        Some(ImageFault::Program(ProgramFault::Word(fault)))
    );
    Ok(())
}

// Two faults at once give the one that is written first.
#[test]
fn the_order_of_refusals(rt: HostRuntime) -> Result<(), Fail> {
    let heap = rt.alloc();
    let mut bytes = image_of(heap, &[LOADC], &[1], 2)?;
    patch(&mut bytes, 1, 1, 0);
    assert_eq!(rt; opened(&bytes), Err((3, 0)));
    patch(&mut bytes, 0, 3, 9);
    assert_eq!(rt; opened(&bytes), Err((16, 0)));
    set_word(&mut bytes, 2 * 128 + 9, 1);
    assert_eq!(rt; opened(&bytes), Err((15, 2)));
    assert_eq!(rt;
        opened(&bytes[..bytes.len() - bytes.len() / 512]),
        Err((14, 0))
    );
    Ok(())
}
