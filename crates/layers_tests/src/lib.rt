//! Tests from outside of what is to be freed, open views, sends and images, and of replies, names and entries as values. `base_rows` and
//! `snapshot_rows` have the rows of the crates below.
#![tactic(auto)]

#[cfg(test)]
mod images;
#[cfg(test)]
mod open_views;
#[cfg(test)]
mod sent;
#[cfg(test)]
mod slices;
#[cfg(test)]
mod streams;
#[cfg(test)]
mod values;
