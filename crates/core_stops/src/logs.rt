ghost use Rattle.std.specs.Prelude.{ℕ, ◌≡◌, ◌+◌, ◌≤◌, ◌++◌, List, length};
ghost use Rattle.blk_base.specs.declared.geometry.Geometry.{Geometry};
ghost use Rattle.disk_model.specs.declared.call.Call.{Call};
ghost use Rattle.disk_model.specs.Log.{Blocks};
ghost use Rattle.vdo_model.specs.declared.report.FlushMark.{FlushMark};
ghost use Rattle.vdo_model.specs.declared.report.RunReport.{RunReport};
ghost use Rattle.vdo_model.specs.FlushMarks.{AreFlushMarks, Moment, calls_of, successes};
ghost use Rattle.vdo_model.specs.Scripts.{Script};
ghost use Rattle.vdo_model.specs.Stops.{RightAfterStops, length_at};
ghost use Rattle.core_stops.specs.Logs.{AreWithin, StopsRight, StopsShow, report_from};
ghost use Rattle.core_stops.specs.Sequences.{ShowsValues};

/// Where each image of the first part of a log shows the opening values, and a session on it is right after a stop, the
/// whole log is right after a stop, with lengths and marks counted from its first call. It does nothing.
pub fn stops_over_the_whole_log()
    ensures whole { (g : Geometry) (most : ℕ) (blocks : Blocks) (entry earlier session : List Call)
        (logical : ℕ) (opening : ℕ → List ℕ) (report : RunReport)
        → AreWithin session report.marks →
        StopsShow (ShowsValues g most) blocks entry logical opening earlier
        →
        RightAfterStops (ShowsValues g most) blocks
        (earlier ++ entry) logical opening report session
        →
        StopsRight (ShowsValues g most) blocks entry (session ++ (earlier ++ entry)) logical opening
        (report_from (successes (earlier ++ entry)) report) }
    ensures session { (g : Geometry) (most : ℕ) (blocks : Blocks)
        (entry earlier session : List Call) (logical : ℕ) (opening : ℕ → List ℕ)
        (report : RunReport)
        → AreWithin session report.marks
        →
        StopsRight (ShowsValues g most) blocks entry (session ++ (earlier ++ entry)) logical opening
        (report_from (successes (earlier ++ entry)) report)
        →
        RightAfterStops (ShowsValues g most) blocks
        (earlier ++ entry) logical opening report session }
    ensures marks { (script : Script) (moments : List Moment) (marks : List FlushMark) →
        AreFlushMarks script moments marks → AreWithin (calls_of moments) marks }
    ensures lengths { (session before : List Call) (n : ℕ) → 1 ≤ n →
        length_at (session ++ before) (n + successes before) ≡ length_at session n + length before }
{}
