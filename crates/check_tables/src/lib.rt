//! Checks of the rows of all tables and of what changes them, by worked examples, and of a shot of a small table.
#![tactic(auto)]

#[cfg(test)]
mod bulk;
#[cfg(test)]
mod shot;
#[cfg(test)]
mod tables;
