// Literals, clauses and tables of numbers, the lowest crate: it promises what a literal's parts are, and that
// tables are read and written without a way to fail. `statements` holds the theorems about clauses and proofs.
#![tactic(auto)]

pub mod clause;
pub mod literal;
pub mod statements;
pub mod table;
