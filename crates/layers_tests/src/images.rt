//! Tests of images: walked at each moment, moved, damaged, and where memory is refused.

mod damaged;
mod moments;
mod moved;
mod output;
mod paths;
mod refused;
mod trees;
