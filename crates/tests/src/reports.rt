// The line that is printed on an image.
use crate::bytes::*;
use host::report;
use std::process::Abort;
use std::test::Fail;

fn says(rt: &impl Abort, bytes: &[u8], line: &[u8]) {
    let text = report(bytes);
    assert_eq!(rt; text.as_bytes(), line);
}

#[test]
fn lines(rt: HostRuntime) -> Result<(), Fail> {
    let heap = rt.alloc();
    let program = vec![in heap; LOADC; 1024]?;
    let words = vec![in heap; 7u32; 4096]?;
    let mut bytes = image_of(heap, &program, &words, 8)?;
    says(&rt, &bytes, b"program 1024 data 4096 depth 8\n");
    says(&rt, &[], b"refused 14 place 0\n");
    patch(&mut bytes, 9, 16, 0);
    says(&rt, &bytes, b"refused 3 place 1023\n");
    patch(&mut bytes, 0, 3, 0);
    says(&rt, &bytes, b"refused 16 place 0\n");
    set_word(&mut bytes, 128 * 42 + 7, 1);
    says(&rt, &bytes, b"refused 15 place 42\n");
    Ok(())
}
