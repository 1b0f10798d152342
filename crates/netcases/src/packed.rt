// Texts on one line: a slash for each byte 10, `*N` after a line that comes N times, and a percent sign with two hexadecimal digits for any other byte.
use std::alloc::{AllocError, Global};

// A text up to the first mark: a second mark of its kind, and what follows, is no part of a case.
pub(crate) fn before(text: &str, mark: char) -> &str {
    text.split_once(mark).map_or(text, |(front, _)| front)
}

// What follows a percent sign: a byte in hexadecimal, then bytes as they are.
fn push_escaped(text: &mut Vec<u8>, part: &str) -> Result<(), AllocError> {
    let Some((digits, rest)) = part.split_at_checked(2) else {
        return Ok(());
    };
    if let Ok(byte) = u8::from_str_radix(digits, 16) {
        text.push(byte)?;
    }
    text.extend_from_slice(rest.as_bytes())
}

fn push_line(text: &mut Vec<u8>, line: &str) -> Result<(), AllocError> {
    let mut parts = line.split('%');
    if let Some(plain) = parts.next() {
        text.extend_from_slice(plain.as_bytes())?;
    }
    for part in parts {
        push_escaped(text, part)?;
    }
    Ok(())
}

// A line, which comes once unless a number of times stands behind it.
fn push_lines(text: &mut Vec<u8>, word: &str) -> Result<(), AllocError> {
    let (line, times) = match word.split_once('*') {
        None => (word, 1),
        Some((line, digits)) => (line, before(digits, '*').parse::<usize>().unwrap_or(0)),
    };
    for _ in 0..times {
        push_line(text, line)?;
        text.push(b'\n')?;
    }
    Ok(())
}

pub(crate) fn unpack(heap: Global, packed: &str) -> Result<Vec<u8>, AllocError> {
    let mut text = Vec::new(heap);
    for word in packed.split('/') {
        push_lines(&mut text, word)?;
    }
    // The last line has no byte 10 behind it.
    let _ = text.pop();
    Ok(text)
}
