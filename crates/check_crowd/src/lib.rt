//! Checks of a crowd over a store in memory: sessions on threads, with merges and savepoints beside them.
#![tactic(auto)]

#[cfg(test)]
mod acts;
#[cfg(test)]
mod asking;
#[cfg(test)]
mod calls;
#[cfg(test)]
mod facts;
#[cfg(test)]
mod faults;
#[cfg(test)]
mod histories;
#[cfg(test)]
mod stops;
#[cfg(test)]
mod streams;
#[cfg(test)]
mod watch;
