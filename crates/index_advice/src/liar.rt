ghost use Rattle.std.specs.Prelude.{◌≡◌, None};
ghost use Rattle.index_advice.specs.Kept.{next_of, rest_of};

use crate::{Advisor, Look};
use blk_base::{Block, Pbn};
use block_names::Name;
use std::marker::Model;

/// An advisor that gives some answers in turn, whatever it is asked, and then knows nothing. Contracts see the answers
/// that are left.
#[derive(Drop)]
pub struct Liar {
    answers: Vec<Look>,
    given: usize,
}

impl Model for Liar {
    ghost use Rattle.std.specs.Prelude.{List, ◌≤◌, drop, length};
    ghost use Rattle.index_advice.specs.declared.look.Look.{Look};

    ghost Value = { List Look };

    ghost view = { λ l. drop l.given l.answers.items };

    ghost invariant = { λ l. l.given ≤ length l.answers.items };
}

impl Liar {
    /// An advisor that gives these answers.
    pub fn new(answers: Vec<Look>) -> Liar
        ensures { result ≡ answers.items }
    {
        Liar { answers, given: 0 }
    }
}

impl Advisor for Liar {
    ghost use Rattle.std.specs.Prelude.{false};
    ghost use Rattle.index_advice.specs.Books.{no_book};

    ghost tells = { false };

    ghost book = { λ l. no_book };

    ghost unread = { λ l. false };

    /// Gives the next answer; `Nothing` behind the last.
    fn look(&mut self, _name: &Name) -> Look
        ensures answer { result ≡ next_of self.old }
        ensures rest { self.new ≡ rest_of self.old }
    {
        match self.answers.get(self.given) {
            Some(answer) => {
                self.given += 1;
                *answer
            }
            None => Look::Nothing,
        }
    }

    fn page(&mut self, _at: Pbn, _read: Option<&Block>)
        ensures { self.new ≡ self.old }
    {}

    fn learn(&mut self, _name: &Name, _at: Pbn)
        ensures { self.new ≡ self.old }
    {}

    fn write_due(&mut self, _into: &mut Block) -> Option<Pbn>
        ensures none { result ≡ None }
        ensures same { self.new ≡ self.old }
    {
        None
    }

    fn finish(&mut self)
        ensures { self.new ≡ self.old }
    {}
}
