ghost use Rattle.std.specs.Prelude.{◌≡◌, ◌≤◌, false, length, true};
ghost use Rattle.blk_base.specs.declared.place.Pbn.{Pbn as Place};
ghost use Rattle.index_advice.specs.declared.look.Look.TheVariants.{Nothing, Read};
ghost use Rattle.sparse_index.specs.Hooks.{is_hook};

use block_names::Name;
use index_advice::{Advisor, Look};
use sparse_index::Sparse;

// A name that is no hook isn't looked for on the device.
fn no_page_for_another_name(index: &mut Sparse, name: &Name) -> Look
    requires { is_hook name.now ≡ false }
    ensures { (at : Place) → result ≡ Read at → ⊥ }
{
    index.look(name)
}

// Behind four pages a look asks for none.
fn no_fifth_page(index: &mut Sparse, name: &Name) -> Look
    requires { 4 ≤ length index.old.given }
    ensures { (at : Place) → result ≡ Read at → ⊥ }
{
    index.look(name)
}

// A look whose page couldn't be read finds nothing, and caches nothing.
fn a_page_that_fails_is_not_cached(index: &mut Sparse, name: &Name) -> Look
    requires { index.old.unread ≡ true }
    ensures found { result ≡ Nothing }
    ensures cached { index.new.cached ≡ index.old.cached }
{
    index.look(name)
}
