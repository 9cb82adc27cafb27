//! The mathematics below the monoid: words, languages, automata, congruences and shortlex graphs. The definitions
//! stand in `specs/`, the laws are the contracts of this crate's functions.
#![tactic(auto)]

pub mod equivalences;
pub mod examples;
pub mod language;
pub mod minimal_automata;
pub mod paths;
pub mod reduced_words;
pub mod shortlex_graphs;
pub mod subwords;
pub mod words;
