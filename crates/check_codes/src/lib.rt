//! Checks of masks, code vectors and dictionaries, and of what a merge does with them, by worked examples.
#![tactic(auto)]

#[cfg(test)]
mod codes;
#[cfg(test)]
mod dictmerge;
#[cfg(test)]
mod eight;
#[cfg(test)]
mod mask;
#[cfg(test)]
mod prefix;
#[cfg(test)]
mod recode;
#[cfg(test)]
mod unsorted;
#[cfg(test)]
mod weigh;
