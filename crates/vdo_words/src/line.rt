ghost use Rattle.std.specs.Prelude.{◌≡◌, IfSome, map, option_map, string_bytes, true};
ghost use Rattle.vdo_words.specs.Given.{find as first_of, given};
ghost use Rattle.vdo_words.specs.OptionMatches.{text_in, FindsValues};
ghost use Rattle.vdo_words.specs.Options.{are_right, spelling};

use crate::clap_matches::{long, matches};
use crate::given::find;
use crate::option_names::OptionName;
use clap::ArgMatches;
use std::alloc::Global;
use std::marker::Model;

/// The options of words that are right, with what clap finds in them if it had the memory.
#[derive(Drop)]
pub(crate) struct Line<'a> {
    words: &'a [String],
    matches: Option<ArgMatches<'a>>,
}

impl<'a> Model for Line<'a> {
    ghost use Rattle.std.specs.Prelude.{IfSome, List, map, string_bytes};
    ghost use Rattle.vdo_words.specs.Given.{Given, given};
    ghost use Rattle.vdo_words.specs.OptionMatches.{FindsValues};

    ghost Value = { List Given };

    ghost view = { λ line. given (map string_bytes line.words.now) };

    ghost invariant = { λ line. IfSome line.matches (FindsValues (given (map string_bytes line.words.now))) };
}

impl<'a> Line<'a> {
    /// The line of these words.
    pub(crate) fn new(alloc: Global, names: &[OptionName], words: &'a [String]) -> Line<'a>
        requires { are_right names.now (given (map string_bytes words.now)) ≡ true }
        ensures { result ≡ given (map string_bytes words.now) }
    {
        Line {
            words,
            matches: matches(alloc, names, words).ok(),
        }
    }

    /// The value of this option, as clap finds it, else as the words have it.
    pub(crate) fn value(&self, name: OptionName) -> Option<&'a str>
        ensures { option_map (λ text. text.now) result
            ≡ text_in (first_of (spelling name) self.now) }
    {
        match &self.matches {
            Some(found) => found.get_str(long(name)),
            None => find(name.spelling(), self.words)?.value,
        }
    }
}
