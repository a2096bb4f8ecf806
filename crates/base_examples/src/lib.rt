//! Worked examples of what all stand on: lines, hosts, words, images, schedules, settings and calls.
#![tactic(auto)]

#[cfg(test)]
mod acts;
#[cfg(test)]
mod calls;
#[cfg(test)]
mod entries;
#[cfg(test)]
mod hosts;
#[cfg(test)]
mod images;
#[cfg(test)]
mod lines;
#[cfg(test)]
mod marks;
#[cfg(test)]
mod schedules;
#[cfg(test)]
mod settings;
#[cfg(test)]
mod texts;
#[cfg(test)]
mod transfers;
#[cfg(test)]
mod words;
