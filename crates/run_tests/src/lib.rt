//! Tests of whole runs of the program of which no text tells enough: devices, sources and sinks that fail, blocks that read
//! otherwise, calls, receipts, and stops at each call. What words, a script and a text show, `cases/` tries on the proved program;
//! one case of each kind is here too.
#![tactic(auto)]

#[cfg(test)]
mod pending;
#[cfg(test)]
mod printed;
#[cfg(test)]
mod rows;
#[cfg(test)]
mod runs;
#[cfg(test)]
mod stops;
#[cfg(test)]
mod tool_faults;
#[cfg(test)]
mod tools;
