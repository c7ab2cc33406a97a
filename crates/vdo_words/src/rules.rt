ghost use Rattle.std.specs.Prelude.{◌≡◌, map, option_map, string_bytes};
ghost use Rattle.vdo_words.specs.Given.{given};
ghost use Rattle.vdo_words.specs.Options.{accepts, is_right, are_right};
ghost use Rattle.vdo_words.specs.Refused.{first_wrong};

use crate::given::{Given, find, first_given};
use crate::option_names::OptionName;
use crate::options::number_of;

// Whether an option may have this value: the flag has none, and each other a number within its range.
fn accepts(name: OptionName, value: Option<&str>) -> bool
    ensures { result ≡ accepts name (option_map (λ v. v.now) value.entry) }
{
    match (name, value) {
        (OptionName::Threads, value) => value.is_none(),
        (name, Some(text)) => number_of(name, text).is_some(),
        (_, None) => false,
    }
}

// Whether an option is one of these, with a value that it may have.
fn is_right(names: &[OptionName], option: &Given<'_>) -> bool
    ensures { result ≡ is_right names.now option.now }
{
    let mut left = names;
    'names: while let [name, rest @ ..] = left {
        if option.name == name.spelling() {
            return accepts(*name, option.value);
        }
        left = rest;
    }
    false
}

/// The name of the first option that isn't one of these, has a value that it may not have, or stands again behind.
pub(crate) fn first_wrong<'a>(names: &[OptionName], words: &'a [String]) -> Option<&'a str>
    ensures { option_map (λ word. word.now) result
        ≡ first_wrong names.now (given (map string_bytes words.now)) }
{
    let mut left = words;
    'options: while let Some((option, rest)) = first_given(left) {
        if !is_right(names, &option) || find(option.name, rest).is_some() {
            return Some(option.name);
        }
        left = rest;
    }
    None
}

/// Whether the words give options of these alone, each at most once and with a value that it may have.
pub(crate) fn are_right(names: &[OptionName], words: &[String]) -> bool
    ensures { result ≡ are_right names.now (given (map string_bytes words.now)) }
{
    first_wrong(names, words).is_none()
}
