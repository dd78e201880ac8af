//! Rows with deep and long parts. `{` stands for 125 times `(not `, `}` for as many `)`, `#` for 125 times ` 0`, and `$` for 2044 times
//! ` 1`.
use kid_sexp::{Forest, read};
use std::alloc::{AllocError, Global};

fn put_times(text: &mut Vec<u8>, piece: &[u8], times: u32) -> Result<(), AllocError> {
    for _ in 0..times {
        text.extend_from_slice(piece)?;
    }
    Ok(())
}

fn put_spread(text: &mut Vec<u8>, byte: u8) -> Result<(), AllocError> {
    if byte == b'{' {
        return put_times(text, b"(not ", 125);
    }
    if byte == b'}' {
        return put_times(text, b")", 125);
    }
    if byte == b'#' {
        return put_times(text, b" 0", 125);
    }
    if byte == b'$' {
        return put_times(text, b" 1", 2044);
    }
    text.push(byte)?;
    Ok(())
}

fn spread(alloc: Global, row: &str) -> Result<Vec<u8>, AllocError> {
    let mut text = Vec::new(alloc);
    for byte in row.as_bytes() {
        put_spread(&mut text, *byte)?;
    }
    Ok(text)
}

/// The trees of a row, or none where it does not read.
pub fn read_row(alloc: Global, row: &str) -> Option<Forest> {
    match spread(alloc, row) {
        Ok(text) => read(alloc, text.as_slice()).ok(),
        Err(_) => None,
    }
}
