//! A script is read to its end, and a text is put whole.

ghost use Rattle.std.specs.Prelude.{◌≡◌, ◌∷◌, ◌++◌, [], IsTrue, IfOk, OnOk, codes};
ghost use Rattle.blk_base.specs.declared.request.Request.TheVariants.{Flush};
ghost use Rattle.stream_text.specs.Runs.{later_text, run_text};
ghost use Rattle.vdo_model.specs.Scripts.{stream_of};

use disk_model::{Failed, Sink, Source};
use std::alloc::Global;
use stream_text::{ReadScript, put_runs, read_script};
use vdo_model::Requests;

// A script isn't read unless nothing is left of its source: a fault is no end.
fn nothing_is_left_of_the_source<S: Source>(
    alloc: Global,
    source: &mut S,
) -> Result<Requests, ReadScript>
    ensures { IsTrue S.tells → OnOk result ((S.seen source.new).left ≡ []) }
{
    read_script(alloc, source)
}

// The last line counts, though it has no newline.
fn the_last_line_counts<S: Source>(alloc: Global, source: &mut S) -> Result<Requests, ReadScript>
    requires { (S.seen source.old).left ≡ codes "0 flush" }
    ensures { IsTrue S.tells → IfOk result (λ script. stream_of script 0 ≡ Flush ∷ []) }
{
    read_script(alloc, source)
}

// Each run of a text is put, the first one too.
fn two_runs_are_put<K: Sink>(out: &mut K) -> Result<(), Failed>
    requires { (K.seen out.old).held ≡ [] }
    ensures { IsTrue K.tells → OnOk result ((K.seen out.new).held
        ≡ run_text (record { count = 2; byte = 97 })
        ++ later_text (record { count = 1; byte = 98 } ∷ [])) }
{
    put_runs(b"aab", out)
}
