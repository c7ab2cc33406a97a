ghost use Rattle.std.specs.Prelude.{◌≡◌, ◌∷◌, [], ◌<◌, IfSome, MatchOption, length, map, option_map, string_bytes};
ghost use Rattle.vdo_words.specs.Given.{cut, given, find};

use std::marker::Model;

/// One option as the words give it: the word that names it, and its value if there is one.
#[derive(Drop)]
pub(crate) struct Given<'a> {
    pub(crate) name: &'a str,
    pub(crate) value: Option<&'a str>,
}

impl<'a> Model for Given<'a> {
    ghost use Rattle.std.specs.Prelude.{List, ℕ, Option, option_map};

    ghost Value = { List ℕ × Option (List ℕ) };

    ghost view = { λ g. (g.name.now, option_map (λ v. v.now) g.value) };
}

// What one word gives: its value stands behind an equals sign.
// Long to prove: the bytes of a text are cut as its characters are.
fn cut_word(word: &str) -> Given<'_>
    ensures { result ≡ cut word.now }
{
    match word.split_once('=') {
        Some((name, value)) => Given {
            name,
            value: Some(value),
        },
        None => Given {
            name: word,
            value: None,
        },
    }
}

/// The first option of the words, and the words behind it.
pub(crate) fn first_given(words: &[String]) -> Option<(Given<'_>, &[String])>
    ensures parts { MatchOption result
        (given (map string_bytes words.now) ≡ [])
        (λ r. given (map string_bytes words.now) ≡ r.0 ∷ given (map string_bytes r.1.now)) }
    ensures shorter { IfSome result (λ r. length r.1.now < length words.now) }
{
    let [word, rest @ ..] = words else {
        return None;
    };
    let option = cut_word(word.as_str());
    if option.value.is_none() && option.name != "--threads" {
        if let [value, behind @ ..] = rest {
            let option = Given {
                name: option.name,
                value: Some(value.as_str()),
            };
            return Some((option, behind));
        }
    }
    Some((option, rest))
}

/// The first option of this name.
pub(crate) fn find<'a>(name: &str, words: &'a [String]) -> Option<Given<'a>>
    ensures { result ≡ find name.now (given (map string_bytes words.now)) }
{
    let mut left = words;
    'options: while let Some((option, rest)) = first_given(left) {
        if option.name == name {
            return Some(option);
        }
        left = rest;
    }
    None
}
