//! Checks of the texts that come in and go out, and of what the harness makes: the words of a call, the benchmark's
//! lines, replies and their rows, random scripts, and where rows stand behind merges.
#![tactic(auto)]

#[cfg(test)]
mod merges;
#[cfg(test)]
mod reply;
#[cfg(test)]
mod script;
#[cfg(test)]
mod scripts;
