//! What programs of rows share: the words of a row, what it tells, and lines that repeat rows.
//!
//! A row begins with a kind and a dot. Of the kind a program knows what is asked.
//!
//! | Line | Meaning |
//! |---|---|
//! | `list.push 0 7` | one row |
//! | `for 0 62 2: list.push 0 {} & list.look 0` | these rows for each number, which rises by two and stands for `{}`; it tells how many rows there were, and a sum of what they told |
//! | `walk 1 300: list.push 0 {40}; list.pop 0 & list.look 0` | so many times one of these steps, by numbers that look random from the first on, of which each stands for `{}`, and chooses one below 40 for `{40}`; `{%40}` is its rest by 40 |
#![tactic(auto)]

pub mod lines;
pub mod told;
pub mod words;
