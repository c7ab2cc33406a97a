ghost use Rattle.std.specs.Prelude.{◌≡◌, ◌⊎◌, Bool, true, false, None, Some, [], ◌∷◌, IsTrue, IfSome, IfNone, is_none, option_copied};
ghost use Rattle.index_advice.specs.declared.advice.Advice.TheVariants.{Due, Finished, Learnt};
ghost use Rattle.index_advice.specs.Books.{Book, newest_record};
ghost use Rattle.index_advice.specs.Advices.{Leads, HasDuePage};
ghost use Rattle.index_advice.specs.Answers.{Looks, Reads};

use crate::Look;
use blk_base::{Block, Pbn};
use block_names::Name;

/// Says where a block with some name may be stored already. Whatever it answers, only blocks with the same bytes are
/// shared.
pub trait Advisor {
    /// Whether advisors of this type tell their book.
    ghost tells: { Bool };

    /// The book.
    ghost book: { Self → Book };

    /// Whether a page couldn't be read in the look that is under way.
    ghost unread: { Self → Bool };

    /// Looks a name up. After `Read` it is given that page, and asked again.
    fn look(&mut self, name: &Name) -> Look
        ensures book { IsTrue tells → book self.new ≡ book self.old }
        ensures answer { IsTrue tells →
            Looks name.now (book self.old) (unread self.old) (unread self.new) result };

    /// Gives the index block that a look asked for; `None` where it couldn't be read.
    fn page(&mut self, at: Pbn, read: Option<&Block>)
        ensures book { IsTrue tells → book self.new ≡ book self.old }
        ensures unread { IsTrue tells →
            Reads (is_none read.entry) (unread self.old) (unread self.new) };

    /// Learns that a block with this name is stored here.
    fn learn(&mut self, name: &Name, at: Pbn)
        ensures { IsTrue tells → Leads (book self.old) (Learnt name.now at) (book self.new) };

    /// The next page that is to be written, and its block; `None` where there is none.
    fn write_due(&mut self, into: &mut Block) -> Option<Pbn>
        ensures some { IsTrue tells →
            IfSome result (λ at. Leads (book self.old) (Due at) (book self.new)) }
        ensures filled { IsTrue tells → IfSome result (λ at. HasDuePage (book self.old) into.new) }
        ensures none { IsTrue tells →
            IfNone result (((book self.old).due ≡ []) × (book self.new ≡ book self.old)) };

    /// Closes the open chapter, if it has a record, so that its pages are to be written.
    fn finish(&mut self)
        ensures { IsTrue tells → Leads (book self.old) Finished (book self.new) };
}
