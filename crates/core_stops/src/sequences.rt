ghost use Rattle.std.specs.Prelude.{ℕ, ◌≡◌, ◌+◌, ◌^◌, ◌<◌, ◌≤◌, ◌++◌, [], true, false, List, length};
ghost use Rattle.blk_base.specs.declared.geometry.Geometry.{Geometry};
ghost use Rattle.blk_base.specs.declared.journal_entry.CommittedEntry.{CommittedEntry};
ghost use Rattle.disk_model.specs.declared.call.Call.{Call};
ghost use Rattle.disk_model.specs.Images.{HasOneImage, IsImage};
ghost use Rattle.disk_model.specs.Log.{Blocks};
ghost use Rattle.image_model.specs.Maps.{value_of};
ghost use Rattle.image_model.specs.Sound.{IsSound};
ghost use Rattle.image_model.specs.Looked.{HasOneImageButIndex};
ghost use Rattle.journal_stops.specs.Sealed.{Sealed};
ghost use Rattle.recovery_laws.specs.Kept.{AreStopsKept, IsRecovered, IsToRecover, image_in};
ghost use Rattle.session_stops.specs.Beginnings.{IsAsOpened, IsToServe, head_in, opened_in};
ghost use Rattle.session_stops.specs.Closings.{IsClosedImage, IsClosing, IsWrittenOut};
ghost use Rattle.session_stops.specs.Sessions.{StandsAtRest, StandsUnderWay, ShowsSoundly};
ghost use Rattle.vdo_model.specs.declared.report.RunReport.{RunReport};
ghost use Rattle.core_stops.specs.Logs.{StopsRight};
ghost use Rattle.core_stops.specs.Sequences.{AreStopsServed, CanBegin, ShowsValues, next_start};

/// Whatever a stop leaves of a run, as a device of its own it has one image, on which the next run may begin. It does
/// nothing.
pub fn a_run_leaves_what_the_next_one_needs()
    // An image is sound in one way: so its next session begins at one sequence.
    ensures alike { (blocks : Blocks) (one two : IsSound blocks) →
        (two.head ≡ one.head) × (two.last ≡ one.last) × (two.window ≡ one.window) }
    ensures values { (blocks : Blocks) (one two : IsSound blocks) (a : ℕ) →
        value_of (image_in blocks two) a ≡ value_of (image_in blocks one) a }
    ensures image { (opening : Blocks) (log : List Call) (image : Blocks) (g : Geometry)
        (most left : ℕ) (values : ℕ → List ℕ) → IsImage opening log image
        → ShowsValues g most image values → most + left ≤ 2 ^ 54 → g.nonce < 2 ^ 64 →
        HasOneImage image [] image × CanBegin left image }
    ensures next { (blocks : Blocks) (entry now : List Call) (logical : ℕ) (opening : ℕ → List ℕ)
        (g : Geometry) (most left : ℕ) (report : RunReport)
        → StopsRight (ShowsValues g most) blocks entry now logical opening report →
        most + left ≤ 2 ^ 54 → g.nonce < 2 ^ 64
        → (later prefix : List Call) → now ≡ later ++ (prefix ++ entry) → (image : Blocks) →
        IsImage blocks (prefix ++ entry) image
        → HasOneImage image [] image × CanBegin left image }
    ensures serves { (blocks : Blocks) (can : CanBegin (2 ^ 19) blocks) →
        can.sound.head.clean ≡ true → IsToServe blocks }
    ensures recovers { (opening : Blocks) (first : List Call) (left : ℕ) (blocks : Blocks)
        (can : CanBegin left blocks) → HasOneImageButIndex opening first blocks
        → can.sound.head.clean ≡ false → IsToRecover opening first blocks }
    ensures recovered { (blocks : Blocks) (left : ℕ) (can : CanBegin left blocks) →
        can.sound.head.clean ≡ false → (opening : Blocks) (log : List Call) (now : Blocks) →
        HasOneImageButIndex opening log now
        → IsRecovered (image_in blocks can.sound) can.sound.last now →
        (new : CanBegin left now) × (new.sound.head.clean ≡ true) }
    ensures less { (blocks : Blocks) (left fewer : ℕ) → fewer ≤ left → CanBegin left blocks →
        CanBegin fewer blocks }
    // Of the start and of what recovery makes of it, the one number says both.
    ensures late { (blocks : Blocks) (sound : IsSound blocks) (left : ℕ) →
        sound.head.start + left ≤ 2 ^ 54 →
        (sound.head.clean ≡ false → (sound.last + 2) + left ≤ 2 ^ 54)
        → next_start blocks sound + left ≤ 2 ^ 54 }
    ensures both_late { (blocks : Blocks) (sound : IsSound blocks) (left : ℕ) →
        next_start blocks sound + left ≤ 2 ^ 54
        →
        (sound.head.start + left ≤ 2 ^ 54)
        × (sound.head.clean ≡ false → (sound.last + 2) + left ≤ 2 ^ 54) }
{}

/// How far the first sequence of the next session rises: not at all while an image is recovered, and by at most 2^18 in a
/// session of fewer blocks. It does nothing.
pub fn how_far_sequences_rise()
    ensures recovered { (blocks now : Blocks) (sound : IsSound blocks) → sound.head.clean ≡ false →
        (is : IsRecovered (image_in blocks sound) sound.last now)
        → next_start now is.kept.sound ≡ next_start blocks sound }
    ensures served { (opening blocks : Blocks) (first : List Call) (sound : IsSound blocks)
        (calls : List Call) → HasOneImageButIndex opening first blocks
        → AreStopsKept blocks sound opening first calls →
        AreStopsServed opening first blocks sound calls }
    ensures base { (base : Blocks) (to : IsToServe base) →
        next_start base to.sound ≡ to.sound.head.start }
    ensures opened { (base : Blocks) (to : IsToServe base) (image : Blocks)
        (is : IsAsOpened base to image) → next_start image is.sound ≤ to.sound.head.start + 1 }
    ensures rest { (base : Blocks) (to : IsToServe base) (opening : Blocks) (log : List Call)
        (blocks : List Sealed) (image : Blocks) → IsImage opening log image
        → StandsAtRest opening log base to blocks →
        (entries : List CommittedEntry)
        (shows : ShowsSoundly (opened_in base to) (head_in base to) image entries)
        → next_start image shows.sound ≡ to.sound.head.start + length blocks + 1 }
    ensures torn { (base : Blocks) (to : IsToServe base) (opening : Blocks) (log : List Call)
        (blocks : List Sealed) (image : Blocks) → IsImage opening log image
        → (block : Sealed) → StandsUnderWay opening log base to blocks block →
        (entries : List CommittedEntry)
        (shows : ShowsSoundly (opened_in base to) (head_in base to) image entries)
        → next_start image shows.sound ≤ to.sound.head.start + length blocks + 2 }

    // What an image of a session shows, with that.
    ensures opened_values { (base : Blocks) (to : IsToServe base) (image : Blocks) →
        IsAsOpened base to image
        →
        ShowsValues to.sound.head.geometry (next_start base to.sound + 2 ^ 18) image
        (value_of (opened_in base to)) }
    ensures rest_values { (base : Blocks) (to : IsToServe base) (opening : Blocks) (log : List Call)
        (blocks : List Sealed) (image : Blocks) → IsImage opening log image
        → StandsAtRest opening log base to blocks →
        (entries : List CommittedEntry)
        (shows : ShowsSoundly (opened_in base to) (head_in base to) image entries)
        →
        ShowsValues to.sound.head.geometry (next_start base to.sound + 2 ^ 18) image
        (value_of (image_in image shows.sound)) }
    ensures torn_values { (base : Blocks) (to : IsToServe base) (opening : Blocks) (log : List Call)
        (blocks : List Sealed) (image : Blocks) → IsImage opening log image
        → (block : Sealed) → StandsUnderWay opening log base to blocks block →
        (entries : List CommittedEntry)
        (shows : ShowsSoundly (opened_in base to) (head_in base to) image entries)
        →
        ShowsValues to.sound.head.geometry (next_start base to.sound + 2 ^ 18) image
        (value_of (image_in image shows.sound)) }
    ensures closing_values { (base : Blocks) (to : IsToServe base) (opening : Blocks)
        (log : List Call) (blocks : List Sealed) (now : Blocks) →
        IsWrittenOut opening log base to blocks
        → (is : IsClosing opening log base to blocks now) →
        ShowsValues to.sound.head.geometry (next_start base to.sound + 2 ^ 18) now
        (value_of (image_in is.old is.shows.sound)) }
    ensures closed_values { (base : Blocks) (to : IsToServe base) (opening : Blocks)
        (log : List Call) (blocks : List Sealed) (now : Blocks) →
        IsWrittenOut opening log base to blocks
        → (is : IsClosedImage opening log base to blocks now) →
        ShowsValues to.sound.head.geometry (next_start base to.sound + 2 ^ 18) now
        (value_of (image_in is.old is.shows.sound)) }
{}
