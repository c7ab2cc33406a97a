//! The rows of the definitions of devices, images and sessions (`disk_model`, `image_model`, `core_model`): for each clause a
//! small case that it accepts, and one that breaks it alone.
//!
//! They stand apart from what they pin, so that a new row leaves all that stands on these definitions as it was. The examples
//! that rows of other crates share stand beside the definitions: `StreamExample` of `disk_model`; `Example`, `MapExample`,
//! `CountExample`, `FaultExample`, `WholeExample` and `WindowExample` of `image_model`; `ZoneForms` and `WorkedTraces` of
//! `core_model`.
#![tactic(auto)]
