//! Checks of a table: the stamps of a part, rows that are loaded, and a small table with rows in each stage.
#![tactic(auto)]

#[cfg(test)]
mod found;
#[cfg(test)]
mod joint;
#[cfg(test)]
mod load;
#[cfg(test)]
mod outside;
#[cfg(test)]
mod rows;
#[cfg(test)]
mod shown;
#[cfg(test)]
mod table;
#[cfg(test)]
mod tally;
