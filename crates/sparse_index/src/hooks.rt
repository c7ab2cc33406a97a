ghost use Rattle.std.specs.Prelude.{◌≡◌};
ghost use Rattle.sparse_index.specs.Hooks.{hooks_of, is_hook};

use block_names::Name;
use uds_chapters::{Chapter, OpenChapter};

/// Whether a name is a hook.
pub(crate) fn is_hook(name: &Name) -> bool
    ensures { result ≡ is_hook name.now }
{
    name.as_bytes()[8] % 32 == 0
}

/// The chapter with its hooks alone.
pub(crate) fn hooks_of(chapter: &Chapter) -> Chapter
    ensures { result ≡ hooks_of chapter.now }
{
    let mut hooks = OpenChapter::new();
    for record in chapter.records() {
        if is_hook(&record.name) {
            hooks.add(&record.name, record.at);
        }
    }
    hooks.close(chapter.number())
}
