//! The rules that present a finite monoid, and rewriting by them (Froidure and Pin, "Algorithms for
//! computing finite semigroups", 1997).
#![tactic(auto)]

mod listing;
mod rewriting;
mod rules;

pub use listing::rules_of;
pub use rewriting::rewrite;
pub use rules::Rules;
