//! Guards: functions that call those of the formats, of the maps and of recovery, and promise what a wrong body would break.
//! Nothing stands on this crate.
#![tactic(auto)]

mod audits;
mod base;
mod blocks;
mod codecs;
mod counts;
mod crashes;
mod devices;
mod files;
mod formats;
mod growth;
mod lanes;
mod maps;
mod openings;
mod pages;
mod rebuilds;
mod recovery;
mod slab_updates;
mod slabs;
