//! Worked answers of the questions that are asked of a language, with values found by hand. It has tests alone.
#![tactic(auto)]

#[cfg(test)]
mod factors;
#[cfg(test)]
mod languages;
#[cfg(test)]
mod laws_of_all_words;
#[cfg(test)]
mod one_key;
#[cfg(test)]
mod star_free_answers;
#[cfg(test)]
mod star_free_nodes;
#[cfg(test)]
mod subwords;
