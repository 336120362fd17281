//! Checks of the gate: a counter that threads draw from, and a hall that answers lines on a lent disk.
#![tactic(auto)]

pub mod counter;
#[cfg(test)]
mod crew;
#[cfg(test)]
mod hall;
#[cfg(test)]
mod run;
#[cfg(test)]
mod tests;
