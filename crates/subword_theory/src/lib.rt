//! The theory of scattered subwords: words with the same short subwords, their rows of marks, and words that no level
//! of short subwords tells apart. The definitions stand in `specs/`, the laws are the contracts of this crate's
//! functions.
#![tactic(auto)]

pub mod laws;
