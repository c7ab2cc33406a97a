ghost use Rattle.std.specs.Prelude.{◌≡◌};

use std::marker::Model;

/// A page of a chapter that is to be written.
#[derive(Clone, Copy, Debug, PartialEq, Eq)]
pub(crate) struct Page {
    number: u32,
    page: u8,
}

impl Model for Page {
    ghost use Rattle.index_advice.specs.Books.{DuePage};

    ghost Value = { DuePage };

    ghost view = { λ p. record { number = p.number; page = p.page } };

    ghost inverse = { λ p. record { number = p.number; page = p.page } };
}

impl Page {
    /// This page, 0 to 3, of the chapter with this number.
    pub(crate) fn new(number: u32, page: u8) -> Page
        ensures { result ≡ record { number = number; page = page } }
    {
        Page { number, page }
    }

    /// The chapter's number.
    pub(crate) fn number(self) -> u32
        ensures { result ≡ self.number }
    {
        self.number
    }

    /// The page, 0 to 3.
    pub(crate) fn page(self) -> u8
        ensures { result ≡ self.page }
    {
        self.page
    }
}
