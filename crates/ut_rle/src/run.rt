//! A run of equal codes.
/// Equal codes side by side, up to and without the place `end`.
#[derive(Clone, Copy)]
pub struct Run {
    pub code: u32,
    pub end: u32,
}
