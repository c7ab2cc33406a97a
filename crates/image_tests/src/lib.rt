//! Tests of the crates that read, make and mend whole images: each public call on known input; recoveries and forced rebuilds
//! that are stopped at each call, and done again; openings whose calls fail; and what is answered for images with wrong bytes:
//! each field of each block at its ends and past them, and blocks of random bytes.
#![tactic(auto)]

#[cfg(test)]
mod answers;
#[cfg(test)]
mod audits;
#[cfg(test)]
mod bent_images;
#[cfg(test)]
mod counters;
#[cfg(test)]
mod counts;
#[cfg(test)]
mod crashes;
#[cfg(test)]
mod faults;
#[cfg(test)]
mod formats;
#[cfg(test)]
mod fuses;
#[cfg(test)]
mod growths;
#[cfg(test)]
mod heads;
#[cfg(test)]
mod images;
#[cfg(test)]
mod journal;
#[cfg(test)]
mod maps;
#[cfg(test)]
mod named_faults;
#[cfg(test)]
mod new_pages;
#[cfg(test)]
mod openings;
#[cfg(test)]
mod pages;
#[cfg(test)]
mod picks;
#[cfg(test)]
mod plans;
#[cfg(test)]
mod random;
#[cfg(test)]
mod replays;
#[cfg(test)]
mod rows;
#[cfg(test)]
mod stops;
#[cfg(test)]
mod superblocks;
#[cfg(test)]
mod torn;
#[cfg(test)]
mod windows;
