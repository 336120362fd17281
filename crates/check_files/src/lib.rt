//! Checks of the files in the working folder and of std's streams.
#![tactic(auto)]

#[cfg(test)]
mod files;
#[cfg(test)]
mod recorder;
