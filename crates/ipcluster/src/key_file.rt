//! The key that a file holds, in place of the option that names the file.

use cluster_types::message::WordList;
use cluster_types::text::Text;
use std::alloc::AllocError;
use std::fs::{File, OpenFile};
use std::io::{self, Read};
use std::os::unix::fs::PermissionsExt;
use thiserror::Error;

/// The option that names a file.
const OPTION: &str = "--key-file";

/// The option with its value in the same word.
const OPTION_IN_ONE: &str = "--key-file=";

/// The option that the key is handed on by.
const KEY_IN_ONE: &str = "--key=";

/// The most octets of a key.
const LONGEST_KEY: usize = 4_096;

/// The most octets that are read: a key, the line feed behind it, and one that is too many.
const MOST_READ: u64 = 4_098;

/// The permissions of all but the owner of a file.
const OF_OTHERS: u32 = 0o077;

/// Why the words with the key can't be had.
#[derive(Debug, Drop, Error)]
pub enum KeyFileError {
    #[error("{0}")]
    Unreadable(#[from] io::Error),
    #[error("others than its owner may read or change it: chmod 600 mends that")]
    OpenToOthers,
    #[error("it holds no key of 1 to 4,096 octets")]
    NoKey,
    #[error("there is no memory")]
    OutOfMemory(#[from] AllocError),
}

/// The text of a file that none but its owner may read or change, as far as it may be a key with a line feed.
fn text_in(rt: &HostRuntime, path: &str) -> Result<String, KeyFileError> {
    let file = File::open(rt, path)?;
    if file.metadata()?.permissions().mode() & OF_OTHERS != 0 {
        return Err(KeyFileError::OpenToOthers);
    }
    let mut text = String::new(rt.alloc());
    file.take(MOST_READ).read_to_string(&mut text)?;
    Ok(text)
}

/// A text without its last line feed.
fn without_line_feed(text: &str) -> &str {
    match text.strip_suffix('\n') {
        Some(front) => front,
        None => text,
    }
}

/// The word that hands on the key of a file, whose last line feed isn't part of it.
fn key_word(rt: &HostRuntime, path: &str) -> Result<Text, KeyFileError> {
    let text = text_in(rt, path)?;
    let key = without_line_feed(text.as_str());
    if key.is_empty() || key.len() > LONGEST_KEY {
        return Err(KeyFileError::NoKey);
    }
    let mut word = String::from_str(rt.alloc(), KEY_IN_ONE)?;
    word.push_str(key)?;
    Ok(Text::from_string(word)?)
}

/// The word that hands on the key of a file. Where there is none, a line says why.
fn told_key_word(rt: &HostRuntime, path: &str) -> Result<Text, KeyFileError> {
    let word = key_word(rt, path);
    if let Err(error) = &word {
        let _ = eprintln!(rt; "ipcluster: the key file {}: {}", path, error);
    }
    word
}

/// The words with the key of each file that they name in place of its option. Words that end with the option, or have a word
/// with a dash behind it, are left as they are: no command has such.
pub fn with_keys(rt: &HostRuntime, words: &WordList) -> Result<WordList, KeyFileError> {
    let mut read = WordList::new(rt.alloc());
    let mut option: Option<Text> = None;
    for word in words.as_slice() {
        let text = word.as_str();
        match option.take() {
            Some(_) if !text.starts_with('-') => read.push(told_key_word(rt, text)?)?,
            Some(option) => {
                read.push(option)?;
                read.push(word.clone()?)?;
            }
            None if text == OPTION => option = Some(word.clone()?),
            None => match text.strip_prefix(OPTION_IN_ONE) {
                Some(path) => read.push(told_key_word(rt, path)?)?,
                None => read.push(word.clone()?)?,
            },
        }
    }
    if let Some(option) = option {
        read.push(option)?;
    }
    Ok(read)
}
