//! Checks of the store over its disk, and of its disk: the engine's calls by hand and by a caller over any disk, the
//! journal's bytes and files by calls that no script makes, and a stream of frames.
#![tactic(auto)]

#[cfg(test)]
mod calls;
#[cfg(test)]
mod engine;
#[cfg(test)]
mod frame;
#[cfg(test)]
mod group;
#[cfg(test)]
mod image;
#[cfg(test)]
mod insert;
#[cfg(test)]
mod operator;
#[cfg(test)]
mod pages;
#[cfg(test)]
mod pieces;
#[cfg(test)]
mod planned;
#[cfg(test)]
mod redo;
#[cfg(test)]
mod stream;
