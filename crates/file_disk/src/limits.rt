use std::fs;
use std::rt::Files;

/// How many bytes the system lets this process give a file; none where it sets no limit, or doesn't say it. A write behind
/// the limit is answered by a signal that ends the program, so it isn't to be made.
pub fn largest_file<R: Files + Alloc>(rt: &R) -> Option<u64> {
    let Ok(text) = fs::read_to_string(rt, "/proc/self/limits") else {
        return None;
    };
    file_limit(&text)
}

/// The limit that such a table of the system says of the bytes of a file: the first number in its line, which holds now. Where there
/// is no limit it has a word.
pub fn file_limit(table: &str) -> Option<u64> {
    for line in table.lines() {
        if let Some(rest) = line.strip_prefix("Max file size ") {
            return rest.split_whitespace().next()?.parse().ok();
        }
    }
    None
}
