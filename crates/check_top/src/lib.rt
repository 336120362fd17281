//! Checks of the program's top call that no row of a file can say: threads, long logs and random scripts.
#![tactic(auto)]

#[cfg(test)]
mod crowds;
#[cfg(test)]
mod scripts;
#[cfg(test)]
mod sizes;
#[cfg(test)]
mod words;
