//! What the program does, from words and bytes to bytes and a status.

mod journals;
mod statuses;
mod summaries;

use std::alloc::Global;
use std::test::Fail;

// These words, between single spaces.
pub fn words_of(alloc: Global, text: &str) -> Result<Vec<String>, Fail> {
    let mut words = Vec::new(alloc);
    for word in text.split(' ') {
        words.push(String::from_str(alloc, word)?)?;
    }
    Ok(words)
}
