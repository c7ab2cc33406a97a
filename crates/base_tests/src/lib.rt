//! Tests of the crates that speak of blocks, devices and reports, and of the formats, with bytes that another program
//! computed: each public call on known input. And of a file as a device: a real one, one in memory, and one that gives and
//! takes a few bytes at a time, is interrupted, and fails; and of streams in memory as a source and a sink.
#![tactic(auto)]

#[cfg(test)]
mod blocks;
#[cfg(test)]
mod byte_sources;
#[cfg(test)]
mod devices;
#[cfg(test)]
mod fields;
#[cfg(test)]
mod file_limits;
#[cfg(test)]
mod file_reads;
#[cfg(test)]
mod images;
#[cfg(test)]
mod journals;
#[cfg(test)]
mod memory_files;
#[cfg(test)]
mod pages;
#[cfg(test)]
mod real_files;
#[cfg(test)]
mod reports;
#[cfg(test)]
mod slabs;
#[cfg(test)]
mod slow_files;
