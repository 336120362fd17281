//! What a line of a session is answered by a store that many share, and what a crash leaves of the course of such answers.
#![tactic(auto)]

mod answer;

pub use answer::{answer_line, answer_statement, end_merge, length_after};
