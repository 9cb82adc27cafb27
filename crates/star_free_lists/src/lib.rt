//! Star-free lists as values of the program: the list of some nodes, whether it denotes a word, and its pruning.
#![tactic(auto)]

mod accepting;
mod list;
mod pruning;

pub use list::{MOST_NODES, SfList, the_limits};
pub use pruning::{a_list_has_one_pruning, prune};
pub use star_free_theory::SfNode;
