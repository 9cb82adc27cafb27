//! Expressions as they are written, and their position automata.
#![tactic(auto)]

mod evaluation;
mod expr;
mod fault;
mod frames;
mod glushkov;
mod laws;
mod marks;
mod parts;
mod polish;
mod reader;
mod reading;
mod sign;

pub use expr::Expr;
pub use fault::ExprFault;
pub use glushkov::positions;
pub use laws::an_expression_has_a_position_automaton;
pub use reading::read_expr;
