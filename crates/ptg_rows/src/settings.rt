//! The settings of a `run` that a row leaves open.

use ptg_base::Text;
use row_files::Why;
use std::alloc::Global;

/// The arguments, with these settings added if they are a `run` that sets neither workers nor shards.
pub fn with_settings(
    alloc: Global,
    mut words: Vec<Text>,
    settings: &[&str],
) -> Result<Vec<Text>, Why> {
    if leaves_settings_open(words.as_slice()) {
        for word in settings {
            words.push(Text::of(alloc, word.as_bytes())?)?;
        }
    }
    Ok(words)
}

// Whether the arguments are a `run` that sets neither workers nor shards.
fn leaves_settings_open(words: &[Text]) -> bool {
    match words.first() {
        Some(verb) => verb.bytes() == b"run".as_slice()
            && words.iter().all(|word| !is_setting(word)),
        None => false,
    }
}

// Whether the argument is an option with a number.
fn is_setting(word: &Text) -> bool {
    word.bytes().starts_with(b"--workers") || word.bytes().starts_with(b"--shards")
}
