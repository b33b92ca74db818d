// Data memories: the edges of each, and what a caller that lent its words or bytes gets back.
use crate::bytes::*;
use blocks::block_memory::BlockMemory;
use blocks::patch::replace_in_image;
use cache::cache::Cache;
use cache::line::Line;
use cache::through::{replace_through, replace_through_two};
use host::pile::replace_data_word;
use image::opening::open;
use memory::fault::NoWord;
use memory::flat::{FlatMemory, replace_in};
use memory::meaning::DataMemory;
use refusal::Refusal;
use std::process::Abort;
use std::test::Fail;

// The last word of a memory is there, and what lies at its size and beyond is refused.
fn edges<M: DataMemory>(rt: &impl Abort, memory: &mut M, size: u32) {
    assert_eq!(rt; memory.size(), size);
    for address in [size, size.saturating_add(16), 0xffff_ffff] {
        assert_eq!(rt; memory.read(address), Err(NoWord));
        assert_eq!(rt; memory.write(address, 1), Err(NoWord));
    }
    if size > 0 {
        assert_eq!(rt; memory.write(size - 1, 77), Ok(()));
        assert_eq!(rt; memory.read(size - 1), Ok(77));
    }
    assert_eq!(rt; memory.size(), size);
}

fn cached_edges<M: DataMemory>(rt: &impl Abort, memory: &mut M, size: u32) {
    let mut cache = Cache::new(memory);
    edges(rt, &mut cache, size);
    cache.flush();
    cache.flush();
    edges(rt, &mut cache, size);
    cache.flush();
}

#[test]
fn sizes_of_flat_memories(rt: HostRuntime) -> Result<(), Fail> {
    for (len, size) in [(0usize, 0u32), (1, 1), (16, 16), (4096, 4096), (4097, 4096)] {
        let mut words = vec![in rt.alloc(); 5u32; len]?;
        let mut memory = FlatMemory::new(&mut words);
        cached_edges(&rt, &mut memory, size);
        edges(&rt, &mut memory, size);
        for (i, word) in words.iter().enumerate() {
            assert_eq!(rt; *word, if i + 1 == size as usize { 77 } else { 5 });
        }
    }
    assert_eq!(rt; NoWord.number(), 13);
    assert_eq!(rt; NoWord.figure(), 0);
    Ok(())
}

// Two addresses of one line: the word of the first goes down when the second takes the line, and not before.
fn share_a_line<M: DataMemory>(rt: &impl Abort, memory: &mut M) {
    let mut cache = Cache::new(memory);
    assert_eq!(rt; cache.line(3), None);
    assert_eq!(rt; cache.write(3, 30), Ok(()));
    assert_eq!(rt; cache.write(3, 31), Ok(()));
    assert_eq!(rt;
        cache.line(19),
        Some(Line {
            address: 3,
            word: 31,
        })
    );
    assert_eq!(rt; cache.read(19), Ok(5));
    assert_eq!(rt;
        cache.line(3),
        Some(Line {
            address: 19,
            word: 5,
        })
    );
    assert_eq!(rt; cache.read(3), Ok(31));
    assert_eq!(rt; cache.read(4096), Err(NoWord));
    assert_eq!(rt; cache.line(0), None);
    assert_eq!(rt; cache.write(4, 40), Ok(()));
}

#[test]
fn two_addresses_of_one_line(rt: HostRuntime) -> Result<(), Fail> {
    let mut words = vec![in rt.alloc(); 5u32; 32]?;
    let mut memory = FlatMemory::new(&mut words);
    share_a_line(&rt, &mut memory);
    // the held word of address 4 was never written down
    assert_eq!(rt; memory.read(3), Ok(31));
    assert_eq!(rt; memory.read(4), Ok(5));
    Ok(())
}

#[test]
fn words_replaced_at_every_layer(rt: HostRuntime) -> Result<(), Fail> {
    let heap = rt.alloc();
    let mut words = vec![in heap; 5u32; 4097]?;
    assert_eq!(rt; replace_in(&mut words, 4095, 6), Ok(5));
    assert_eq!(rt; replace_in(&mut words, 4096, 6), Err(NoWord));
    let mut memory = FlatMemory::new(&mut words);
    assert_eq!(rt; replace_through(&mut memory, 4095, 7), Ok(6));
    assert_eq!(rt; replace_through_two(&mut memory, 4095, 8), Ok(7));
    assert_eq!(rt; replace_through_two(&mut memory, 4096, 8), Err(NoWord));
    assert_eq!(rt; memory.read(4095), Ok(8));
    assert!(rt; words.len() == 4097);
    assert_eq!(rt; words[4096], 5);
    // 127 data words, so that the last stands alone in its block
    let mut bytes = image_of(heap, &[LOADC, LOADC], &words[0..127], 2)?;
    assert_eq!(rt; replace_in_image(&mut bytes, 126, 9), Ok(5));
    assert_eq!(rt; replace_data_word(&mut bytes, 126, 10), Ok(9));
    assert_eq!(rt; replace_data_word(&mut bytes, 0, 11), Ok(5));
    assert_eq!(rt; replace_data_word(&mut bytes, 127, 12), Err(NoWord));
    let first = word(&bytes, 2 * 128 + 1);
    assert_eq!(rt; (first, word(&bytes, 3 * 128 + 1)), (11, 10));
    let image = open(&bytes)?;
    assert_eq!(rt; image.data_word(0), Some(11));
    assert_eq!(rt; image.data_word(1), Some(5));
    assert_eq!(rt; image.data_word(126), Some(10));
    assert_eq!(rt; image.program_word(1), Some(LOADC));
    assert_eq!(rt; (image.data_size(), image.depth()), (127, 2));
    Ok(())
}

fn has_no_words(rt: &impl Abort, bytes: &mut [u8], before: &[u8]) {
    let mut memory = BlockMemory::new(bytes);
    cached_edges(rt, &mut memory, 0);
    assert_eq!(rt; replace_data_word(bytes, 0, 1), Err(NoWord));
    assert!(rt; &*bytes == before);
}

// An image with no data words, and a damaged one: no words, and no byte changes.
#[test]
fn block_memories_with_no_words(rt: HostRuntime) -> Result<(), Fail> {
    let heap = rt.alloc();
    let mut empty = image_of(heap, &[LOADC], &[], 1)?;
    let before = empty.clone()?;
    has_no_words(&rt, &mut empty, &before);
    let mut damaged = image_of(heap, &[LOADC], &[1, 2, 3], 1)?;
    set_word(&mut damaged, 128 + 5, 1);
    let before = damaged.clone()?;
    has_no_words(&rt, &mut damaged, &before);
    Ok(())
}
