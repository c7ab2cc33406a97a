//! Tests of the core and of the schedules of its events: what requests are answered with, by events in several orders, by
//! one stream and by many, with calls that fail, where blocks are let go and used again, and where none is free; and what
//! stops leave: what reads of it give once it is opened again, and whether each block is counted as often as it is mapped.
#![tactic(auto)]

#[cfg(test)]
mod asks;
#[cfg(test)]
mod judging;
#[cfg(test)]
mod orders;
#[cfg(test)]
mod plans;
#[cfg(test)]
mod runs;
#[cfg(test)]
mod scarce_blocks;
#[cfg(test)]
mod sessions;
#[cfg(test)]
mod spaces;
