//! Worked examples of the whole chip, of generated workloads and of runs over files.
#![tactic(auto)]

#[cfg(test)]
mod chips;
#[cfg(test)]
mod fine_chips;
#[cfg(test)]
mod generated_runs;
#[cfg(test)]
mod runs;
#[cfg(test)]
mod workloads;
