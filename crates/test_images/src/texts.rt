use std::alloc::Global;
use std::fmt::Display;

/// The place of the first byte that is another or is missing.
pub fn first_other(found: &[u8], wanted: &[u8]) -> Option<usize> {
    for (i, (one, other)) in found.iter().zip(wanted).enumerate() {
        if one != other {
            return Some(i);
        }
    }
    if found.len() == wanted.len() {
        None
    } else {
        Some(found.len().min(wanted.len()))
    }
}

fn is_shown_as(alloc: Global, value: &impl Display, text: &str) -> bool {
    match format!(in alloc; "{value}") {
        Ok(shown) => shown.as_str() == text,
        Err(_) => false,
    }
}

/// The first of these texts as which its value isn't shown.
pub fn not_shown<T: Display>(alloc: Global, rows: &[(T, &'static str)]) -> Option<&'static str> {
    for (value, text) in rows {
        if !is_shown_as(alloc, value, text) {
            return Some(*text);
        }
    }
    None
}
