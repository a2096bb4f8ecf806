//! Worked examples of portions: a try's lines, signatures, registers and the lock, tries and their ends.
#![tactic(auto)]

#[cfg(test)]
mod checkpoints;
#[cfg(test)]
mod endings;
#[cfg(test)]
mod limits;
#[cfg(test)]
mod locks;
#[cfg(test)]
mod masks;
#[cfg(test)]
mod signatures;
#[cfg(test)]
mod tried_lines;
#[cfg(test)]
mod tries;
