//! Worked examples of the commands, over a host in memory.
#![tactic(auto)]

#[cfg(test)]
mod commands;
#[cfg(test)]
mod words;
