ghost use Rattle.std.specs.Prelude.{ℕ, ◌≡◌, ◌+◌, ◌^◌, ◌<◌, ◌≤◌, ◌++◌, [], List};
ghost use Rattle.disk_model.specs.declared.call.Call.{Call};
ghost use Rattle.disk_model.specs.Images.{HasOneImage, IsImage};
ghost use Rattle.disk_model.specs.Log.{Blocks};
ghost use Rattle.disk_model.specs.Since.{OnlyReads};
ghost use Rattle.image_model.specs.Maps.{value_of};
ghost use Rattle.image_model.specs.Sound.{IsSound};
ghost use Rattle.image_model.specs.Looked.{HasOneImageButIndex};
ghost use Rattle.recovery_laws.specs.Kept.{image_in};
ghost use Rattle.vdo_model.specs.declared.report.RunReport.{RunReport};
ghost use Rattle.vdo_model.specs.FlushMarks.{successes};
ghost use Rattle.vdo_model.specs.Stops.{RightAfterStops};
ghost use Rattle.core_stops.specs.Logs.{AreWithin, StopsRight, StopsShow, report_from};
ghost use Rattle.core_stops.specs.Sequences.{AreStopsServed, CanBegin, ShowsValues, next_start};

/// Recovery, and the reads that open an image, leave each address its opening value, whatever a stop leaves. It does nothing.
pub fn nothing_shows_before_the_session()
    ensures recovered { (opening blocks : Blocks) (first : List Call) (sound : IsSound blocks)
        (most logical : ℕ) → next_start blocks sound ≤ most
        → (calls reads : List Call) → OnlyReads reads →
        AreStopsServed opening first blocks sound calls
        →
        StopsShow (ShowsValues sound.head.geometry most) opening first logical
        (value_of (image_in blocks sound)) (reads ++ calls) }
    ensures read { (opening blocks : Blocks) (first : List Call) (sound : IsSound blocks)
        (most logical : ℕ) → next_start blocks sound ≤ most
        → (reads : List Call) → OnlyReads reads → HasOneImageButIndex opening first blocks
        →
        StopsShow (ShowsValues sound.head.geometry most) opening first logical
        (value_of (image_in blocks sound)) reads }
{}

/// All of a run is right after a stop, over the device's whole log; and on each image that it leaves the next run may begin.
/// It does nothing.
pub fn a_run_is_right_over_its_whole_log()
    ensures right { (opening blocks : Blocks) (entry earlier session : List Call)
        (sound : IsSound blocks) (logical most : ℕ) (report : RunReport) →
        AreWithin session report.marks
        →
        StopsShow (ShowsValues sound.head.geometry most) opening entry logical
        (value_of (image_in blocks sound)) earlier
        →
        RightAfterStops (ShowsValues sound.head.geometry most) opening (earlier ++ entry) logical
        (value_of (image_in blocks sound)) report session
        →
        StopsRight (ShowsValues sound.head.geometry most) opening entry
        (session ++ (earlier ++ entry)) logical (value_of (image_in blocks sound))
        (report_from (successes (earlier ++ entry)) report) }
    ensures leaves { (opening blocks : Blocks) (entry earlier session : List Call)
        (sound : IsSound blocks) (logical most left : ℕ) (report : RunReport) →
        AreWithin session report.marks
        →
        StopsShow (ShowsValues sound.head.geometry most) opening entry logical
        (value_of (image_in blocks sound)) earlier
        →
        RightAfterStops (ShowsValues sound.head.geometry most) opening (earlier ++ entry) logical
        (value_of (image_in blocks sound)) report session
        → most + left ≤ 2 ^ 54 → sound.head.geometry.nonce < 2 ^ 64
        → (later prefix : List Call) → session ++ (earlier ++ entry) ≡ later ++ (prefix ++ entry) →
        (image : Blocks) → IsImage opening (prefix ++ entry) image
        → HasOneImage image [] image × CanBegin left image }
    ensures again { (opening blocks : Blocks) (entry now : List Call) (left logical : ℕ)
        (values : ℕ → List ℕ) (report : RunReport) (can : CanBegin (2 ^ 18 + left) blocks)
        →
        StopsRight
        (ShowsValues can.sound.head.geometry (next_start blocks can.sound + 2 ^ 18)) opening entry
        now logical values report
        → (later prefix : List Call) → now ≡ later ++ (prefix ++ entry) → (image : Blocks) →
        IsImage opening (prefix ++ entry) image
        → HasOneImage image [] image × CanBegin left image }
{}
