//! The stages of a table as lists of rows with their stamps, and what inserts, deletes and merges make of them.
#![tactic(auto)]
