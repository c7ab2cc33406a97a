use crate::arguments::{number_of, texts_of};
use std::io;
use vdo_words::first_refused;

// What can't be told is left out: the answer on standard output and the status stay.

/// Tells why a file can't be opened.
pub(crate) fn tell_unopened(rt: &HostRuntime, path: &str, error: &io::Error) {
    let _told = if error.kind() == io::ErrorKind::WouldBlock {
        eprintln!(rt; "vdo: {path}: held by another program")
    } else {
        eprintln!(rt; "vdo: {path}: {error}")
    };
}

/// Tells the first word that isn't served where it stands.
pub(crate) fn tell_unserved(rt: &HostRuntime) {
    let Ok(texts) = texts_of(rt) else {
        let _told = eprintln!(rt; "vdo: a word can't be read; see vdo --help");
        return;
    };
    let _told = match first_unserved(&texts) {
        Some(word) => eprintln!(rt; "vdo: {word}: not served; see vdo --help"),
        None => eprintln!(rt; "vdo: a word is missing, or two don't go together; see vdo --help"),
    };
}

/// The first of these words that isn't served where it stands, if there is one.
fn first_unserved(texts: &[String]) -> Option<&str> {
    let [_, blocks, words @ ..] = texts else {
        return None;
    };
    match number_of(blocks.as_str()) {
        Some(_) => first_refused(words),
        None => Some(blocks.as_str()),
    }
}
