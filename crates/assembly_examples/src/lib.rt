//! Worked examples of assembly text, there and back.
#![tactic(auto)]

#[cfg(test)]
mod sources;
#[cfg(test)]
mod written_words;
