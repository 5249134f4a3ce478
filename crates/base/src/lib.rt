//! Numbers, data, refusals and meters that every layer uses, and the definitions of a dataset's map.
#![tactic(auto)]

pub mod data;
pub mod failing;
pub mod laws;
pub mod limit;
pub mod meter;
pub mod name;
pub mod number;
pub mod refusal;
pub mod text;
