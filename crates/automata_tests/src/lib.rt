//! Tests of words, sets, automata, expressions and their files: outside values, worked rows, and each call that can
//! want memory on its happy path.
#![tactic(auto)]

#[cfg(test)]
mod devices;
#[cfg(test)]
mod empty_moves;
#[cfg(test)]
mod expressions;
#[cfg(test)]
mod files;
#[cfg(test)]
mod generated;
#[cfg(test)]
mod minimal_automata;
#[cfg(test)]
mod nfas;
#[cfg(test)]
mod number_sets;
#[cfg(test)]
mod searches;
#[cfg(test)]
mod table;
#[cfg(test)]
mod words;
