//! Texts that are put together from parts.
use std::alloc::{AllocError, Global};

/// A front, a part that opens, a middle, a part that closes, and a back.
pub(crate) type Parts<'a> = [&'a str; 5];

fn push_times(text: &mut String, piece: &str, times: u32) -> Result<(), AllocError> {
    for _ in 0..times {
        text.push_str(piece)?;
    }
    Ok(())
}

/// The parts one after the other, those that open and close so many times.
pub(crate) fn spell(alloc: Global, parts: &Parts<'_>, times: u32) -> Result<String, AllocError> {
    let mut text = String::new(alloc);
    for at in 0..5usize {
        let count = if at == 1 || at == 3 { times } else { 1 };
        push_times(&mut text, parts[at], count)?;
    }
    Ok(text)
}
