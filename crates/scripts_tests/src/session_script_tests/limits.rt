use orc_names::NameHasher;
use session_script::{LINE_LIMIT, SIZE_LIMIT, ScriptError, ScriptWhy, read_script};
use std::alloc::{AllocError, Global};
use std::test::Fail;

/// So many lines that are skipped.
fn skipped_lines(alloc: Global, count: u32) -> Result<Vec<u8>, AllocError> {
    let mut text = Vec::new(alloc);
    for _ in 0..count {
        text.extend_from_slice(b"#\n")?;
    }
    Ok(text)
}

/// One line that is skipped, and then one of all but two of so many bytes, and so many empty ones.
fn skipped_bytes(alloc: Global, size: usize, count: u32) -> Result<Vec<u8>, AllocError> {
    let mut text = Vec::new(alloc);
    text.push(b'\n')?;
    text.resize(size, b'#')?;
    for _ in 0..count {
        text.push(b'\n')?;
    }
    Ok(text)
}

/// What the text is refused for, if memory is enough for it.
fn refusal(alloc: Global, made: Result<Vec<u8>, AllocError>) -> Result<Option<ScriptError>, Fail> {
    Ok(read_script(alloc, &made?, 0, NameHasher::Fixed).err())
}

#[test]
fn a_script_has_4096_lines(rt: HostRuntime) -> Result<(), Fail> {
    let alloc = rt.alloc();
    let refused = ScriptError::BadLine(4097, ScriptWhy::TooLong);
    assert_eq!(rt; refusal(alloc, skipped_lines(alloc, LINE_LIMIT))?, None);
    assert_eq!(rt;
        refusal(alloc, skipped_lines(alloc, LINE_LIMIT + 1))?,
        Some(refused)
    );
    Ok(())
}

#[test]
fn a_script_has_1048576_bytes(rt: HostRuntime) -> Result<(), Fail> {
    let alloc = rt.alloc();
    let refused = ScriptError::BadLine(3, ScriptWhy::TooLong);
    assert_eq!(rt;
        refusal(alloc, skipped_bytes(alloc, SIZE_LIMIT - 1, 1))?,
        None
    );
    assert_eq!(rt;
        refusal(alloc, skipped_bytes(alloc, SIZE_LIMIT - 1, 2))?,
        Some(refused)
    );
    Ok(())
}
