//! Worked examples of caches and memory, up to all caches under the directory.
#![tactic(auto)]

#[cfg(test)]
mod caches;
#[cfg(test)]
mod coherence;
#[cfg(test)]
mod memory;
#[cfg(test)]
mod notes;
#[cfg(test)]
mod places;
#[cfg(test)]
mod rows;
#[cfg(test)]
mod sets;
