//! Tests of the parts that the zones are made of, of what keeps the data blocks of slabs, and of what the index advises: each
//! public call on known input, and pages of the index with bytes that another program computed.
#![tactic(auto)]

#[cfg(test)]
mod advisors;
#[cfg(test)]
mod caches;
#[cfg(test)]
mod chapters;
#[cfg(test)]
mod counts;
#[cfg(test)]
mod flushes;
#[cfg(test)]
mod images;
#[cfg(test)]
mod index;
#[cfg(test)]
mod kernels;
#[cfg(test)]
mod lanes;
#[cfg(test)]
mod locks;
#[cfg(test)]
mod maps;
#[cfg(test)]
mod names;
#[cfg(test)]
mod parts;
#[cfg(test)]
mod recovery;
#[cfg(test)]
mod references;
#[cfg(test)]
mod shares;
#[cfg(test)]
mod sharing;
#[cfg(test)]
mod sparse;
#[cfg(test)]
mod tickets;
#[cfg(test)]
mod trees;
#[cfg(test)]
mod updates;
#[cfg(test)]
mod zones;
