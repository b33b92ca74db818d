// Writing: every refusal in its order, and that what was written opens.
use crate::bytes::*;
use image::opening::open;
use std::alloc::Global;
use std::process::Abort;
use std::test::Fail;

// Writes an image of so many words, and looks at each word of it.
fn round_trip(
    rt: &impl Abort,
    heap: Global,
    program_len: usize,
    data_size: usize,
    blocks: usize,
) -> Result<(), Fail> {
    let program: Vec<u32> = (0x11aa_0000..).take(program_len).collect(heap)?;
    let words: Vec<u32> = (0xfedc_0000..).take(data_size).collect(heap)?;
    let bytes = image_of(heap, &program, &words, 8)?;
    assert_eq!(rt; bytes.len() / 512, blocks);
    let image = open(&bytes)?;
    assert_eq!(rt; image.program_len(), program_len);
    assert_eq!(rt; image.data_size(), data_size);
    assert_eq!(rt; image.depth(), 8);
    for (i, word) in (0x1100_0000..).take(program_len).enumerate() {
        assert_eq!(rt; image.program_word(i), Some(word));
    }
    for (i, word) in words.iter().enumerate() {
        assert_eq!(rt; image.data_word(i), Some(*word));
    }
    assert_eq!(rt; image.program_word(program_len), None);
    assert_eq!(rt; image.data_word(data_size), None);
    Ok(())
}

#[test]
fn edges_open_again(rt: HostRuntime) -> Result<(), Fail> {
    let heap = rt.alloc();
    for (program_len, data_size, blocks) in [
        (0usize, 0usize, 1usize),
        (1, 0, 2),
        (0, 1, 2),
        (126, 126, 3),
        (127, 127, 5),
        (1024, 4096, 43),
    ] {
        round_trip(&rt, heap, program_len, data_size, blocks)?;
    }
    Ok(())
}

#[test]
fn checks_of_the_sum(rt: HostRuntime) -> Result<(), Fail> {
    let bytes = image_of(rt.alloc(), &[0x1100_0005, 0x1200_0007, 0x3312_0000], &[], 1)?;
    assert_eq!(rt; word(&bytes, 127), 16);
    assert_eq!(rt; word(&bytes, 255), 0xF27E_0033);
    Ok(())
}

// Two faults at once give the one that is written first, and no byte changes.
#[test]
fn the_order_of_refusals(rt: HostRuntime) -> Result<(), Fail> {
    let heap = rt.alloc();
    let longer = vec![in heap; 0u32; 1025]?;
    let unlawful = vec![in heap; 0u32; 1024]?;
    let much = vec![in heap; 0u32; 4097]?;
    let most = vec![in heap; 0u32; 4096]?;
    let mut bytes = vec![in heap; 0xa5u8; 1023]?;
    assert_eq!(rt; written(&longer, &much, 9, &mut bytes), Err((1, 0)));
    assert_eq!(rt; written(&unlawful, &much, 0, &mut bytes), Err((2, 0)));
    assert_eq!(rt; written(&unlawful, &much, 9, &mut bytes), Err((2, 0)));
    assert_eq!(rt; written(&unlawful, &much, 8, &mut bytes), Err((16, 0)));
    assert_eq!(rt; written(&unlawful, &most, 8, &mut bytes), Err((3, 0)));
    assert_eq!(rt;
        written(&[LOADC, LOADC, 0], &most, 8, &mut bytes),
        Err((3, 2))
    );
    assert_eq!(rt; written(&[LOADC], &[], 1, &mut bytes), Err((17, 0)));
    assert!(rt; bytes.iter().all(|byte| *byte == 0xa5));
    Ok(())
}

#[test]
fn bytes_beyond_stay(rt: HostRuntime) -> Result<(), Fail> {
    let mut bytes = vec![in rt.alloc(); 0xa5u8; 1030]?;
    assert_eq!(rt; written(&[LOADC], &[], 1, &mut bytes), Ok(1024));
    assert!(rt; bytes.iter().skip(1024).all(|byte| *byte == 0xa5));
    bytes.truncate(1024);
    assert_eq!(rt; opened(&bytes), Ok(()));
    Ok(())
}
