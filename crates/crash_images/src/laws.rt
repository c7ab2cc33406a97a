ghost use Rattle.std.specs.Prelude.{◌≡◌, ◌⊎◌, ◌+◌, ◌-◌, ◌<◌, ◌≤◌, ℕ, List, [], length, map};
ghost use Rattle.audit.specs.Audits.{AuditFails, IsAudited};
ghost use Rattle.audit.specs.declared.forms.Report.{Report};
ghost use Rattle.blk_base.specs.declared.geometry.Super.{Super};
ghost use Rattle.command_text.specs.declared.crashes.AddressValue.{AddressValue};
ghost use Rattle.disk_model.specs.declared.fuse.Fuse.TheVariants as fuse;
ghost use Rattle.disk_model.specs.Log.{Blocks};
ghost use Rattle.disk_model.specs.Memory.{Memory};
ghost use Rattle.disk_model.specs.Seen.{Seen};
ghost use Rattle.disk_model.specs.Trust.{Trust};
ghost use Rattle.disk_model.specs.Since.{IsUntouched};
ghost use Rattle.image_model.specs.Sound.{IsSound};
ghost use Rattle.image_model.specs.declared.fault.ImageFault.{ImageFault};
ghost use Rattle.image_model.specs.declared.fault.ImageFault.TheVariants as image;
ghost use Rattle.rebuild.specs.Recoveries.{IsTold};
ghost use Rattle.rebuild.specs.declared.forms.Recovered.TheVariants.{Clean};
ghost use Rattle.recovery_laws.specs.Kept.{image_in};
ghost use Rattle.vdo_model.specs.Scripts.{Script};
ghost use Rattle.crash_images.specs.Addresses.{AreAddresses};
ghost use Rattle.crash_images.specs.Cuts.{IsCutOff};
ghost use Rattle.crash_images.specs.Shows.{AreValues, HasValues, IsShown, ValuesFail};
ghost use Rattle.crash_images.specs.Values.{address_of, value_in};
ghost use Rattle.crash_images.specs.declared.shown.Shown.{Shown};

/// An audit of an honest device whose one image is sound finds no block that differs, and is refused only where a read failed,
/// or for want of memory. It does nothing.
pub fn a_sound_image_passes_its_audit()
    ensures clean { (trust : Trust) (before now : Seen) (blocks : Blocks) (report : Report)
        → IsTold trust before blocks → IsSound blocks
        → IsAudited trust before now report → report.differs.items ≡ [] }
    ensures refused { (trust : Trust) (before now : Seen) (blocks : Blocks) (why : ImageFault)
        → IsTold trust before blocks → IsSound blocks → length before.opening ≡ before.size
        → AuditFails trust before now why → (why ≡ image.Device) ⊎ (why ≡ image.Memory) }
{}

/// The values that were read of an honest device with a sound image are those of that image. What is shown of an image that was
/// closed are its own values, whatever its counts are. And of an image that passed its audit, be it sound or not, the values are
/// refused only where a read failed, or for want of memory. It does nothing.
pub fn an_audited_image_has_its_values()
    ensures sound { (trust : Trust) (script : Script) (before : Seen) (blocks : Blocks)
        (values : List AddressValue) → IsTold trust before blocks → (sound : IsSound blocks)
        → AreValues trust script before values
        → AreAddresses script sound.head.geometry.logical (map address_of values)
        × (values ≡ map (value_in (image_in blocks sound)) (map address_of values)) }
    ensures closed { (trust : Trust) (script : Script) (before : Seen) (blocks : Blocks)
        (shown : Shown) → IsTold trust before blocks
        → IsShown trust script before shown
        → shown.recovery ≡ Clean → (head : Super) × HasValues blocks head shown.values.items
        × AreAddresses script head.geometry.logical (map address_of shown.values.items) }
    ensures refused { (trust : Trust) (before behind now : Seen) (blocks : Blocks)
        (report : Report) (why : ImageFault) → IsTold trust before blocks
        → length before.opening ≡ before.size → IsAudited trust before behind report
        → IsUntouched trust.tells before behind → ValuesFail trust behind now why
        → (why ≡ image.Device) ⊎ (why ≡ image.Memory) }
{}

/// Of a device that was cut off, what a stop leaves something of are the calls that went on, and one more where there was one.
/// It does nothing.
pub fn a_cut_off_device_keeps_its_calls()
    ensures cut { (passes : ℕ) (disk : Memory) → IsCutOff passes disk → passes < length disk.log
        → disk.fuse ≡ fuse.Spent (passes + 1) }
    ensures uncut { (passes : ℕ) (disk : Memory) → IsCutOff passes disk → length disk.log ≤ passes
        → disk.fuse ≡ fuse.Passes (passes - length disk.log) }
{}
