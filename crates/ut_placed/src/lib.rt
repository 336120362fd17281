//! Laws of the places of a store: each, dead or live, holds a row of its table, and each step keeps it so.
#![tactic(auto)]
