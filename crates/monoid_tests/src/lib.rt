//! Worked monoids, with values found by hand: tests of the elements, rules, products, classes and languages of monoids.
#![tactic(auto)]

#[cfg(test)]
mod cayley_tables_tests;
#[cfg(test)]
mod components_tests;
#[cfg(test)]
mod counting;
#[cfg(test)]
mod froidure_pin_tests;
#[cfg(test)]
mod green_relations_tests;
#[cfg(test)]
mod laws_of_all_words;
#[cfg(test)]
mod parallel_table_tests;
#[cfg(test)]
mod presentation_tests;
#[cfg(test)]
mod simon_bound_tests;
#[cfg(test)]
mod syntactic_monoid_tests;
#[cfg(test)]
mod worked;
