ghost use Rattle.std.specs.Prelude.{◌≡◌, ◌≤◌, IfSome, map, string_bytes};
ghost use Rattle.std.specs.Str.{all_ascii_digits};
ghost use Rattle.vdo_words.specs.Given.{given, find as first_of};
ghost use Rattle.vdo_words.specs.Options.{spelling, greatest, is_given, number_of, number_in, number_or};

use crate::given::find;
use crate::line::Line;
use crate::option_names::OptionName;

fn is_digits(text: &str) -> bool
    ensures { result ≡ all_ascii_digits text.now }
{
    let mut left = text.as_bytes();
    'digits: while let [byte, rest @ ..] = left {
        if !byte.is_ascii_digit() {
            return false;
        }
        left = rest;
    }
    true
}

/// The number that a value of this option writes: 1 to 20 decimal digits, within the option's range.
pub(crate) fn number_of(name: OptionName, text: &str) -> Option<u64>
    ensures { result ≡ number_of name text.now }
{
    if text.is_empty() || text.len() > 20 || !is_digits(text) {
        return None;
    }
    let Ok(number) = text.parse::<u64>() else {
        return None;
    };
    if number < name.least() || number > name.greatest() {
        return None;
    }
    Some(number)
}

/// Whether the words give this option.
pub(crate) fn is_given(name: OptionName, words: &[String]) -> bool
    ensures { result ≡ is_given name (given (map string_bytes words.now)) }
{
    find(name.spelling(), words).is_some()
}

/// The number that a line gives for this option.
fn number_given(name: OptionName, line: &Line<'_>) -> Option<u64>
    ensures { result ≡ number_in name (first_of (spelling name) line.now) }
{
    number_of(name, line.value(name)?)
}

/// The number that a line gives for this option, else its default.
pub(crate) fn wide(name: OptionName, default: u64, line: &Line<'_>) -> u64
    ensures { result ≡ number_or default name line.now }
{
    number_given(name, line).unwrap_or(default)
}

/// The same of an option whose range ends at 32 bits.
pub(crate) fn number(name: OptionName, default: u32, line: &Line<'_>) -> u32
    requires { greatest name ≤ 4294967295 }
    ensures { result ≡ number_or default name line.now }
{
    wide(name, u64::from(default), line) as u32
}
