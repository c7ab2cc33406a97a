//! What a crash is tried on, and what it shows: a copy of a device in memory, which is cut off behind its first calls, the
//! addresses that a script names, and the recovery, the audit and the values of an image that is picked there.
//!
//! The values are those of an honest device's one image, by its map with what its window leaves (`specs/Shows`, `HasValues`),
//! whatever its counts are: so where blocks differ too. Where it has neither a damaged page nor a count that leaves its range,
//! nothing but a read that failed, or want of memory, stands in their way (`an_audited_image_has_its_values`).
//!
//! Only tested: the addresses of one script, and their values on copies of two images, one of them with a window and with
//! counts that are wrong.
//!
#![tactic(auto)]

mod addresses;
mod copies;
mod cut;
mod fault;
mod laws;
mod leaves;
mod maps;
mod shown;
mod values;

pub use addresses::addresses_of;
pub use copies::copy_of;
pub use cut::CutDisk;
pub use fault::ValueFault;
pub use laws::{
    a_cut_off_device_keeps_its_calls, a_sound_image_passes_its_audit,
    an_audited_image_has_its_values,
};
pub use maps::{ImageMap, read_map};
pub use shown::{Shown, show, show_pick};
pub use values::{value_at, values_of};
