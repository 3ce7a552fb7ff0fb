//! Tests of library functions that the row crates don't reach, since their input isn't a source file. A crate with tests is proved twice,
//! so this one contains nothing else, and no other crate has tests.
#![tactic(auto)]

#[cfg(test)]
mod gates;
#[cfg(test)]
mod heaps;
#[cfg(test)]
mod packed_histories;
#[cfg(test)]
mod races;
#[cfg(test)]
mod regions_and_rounds;
#[cfg(test)]
mod reports;
#[cfg(test)]
mod sinks_and_sources;
#[cfg(test)]
mod spellings;
#[cfg(test)]
mod turnstiles;
#[cfg(test)]
mod values;
