//! Checks of crews on threads.
#![tactic(auto)]

#[cfg(test)]
mod crew;
