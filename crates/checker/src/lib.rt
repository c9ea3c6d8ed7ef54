// A checker of proofs by unit propagation: what it calls verified holds by the definitions of `formula`.
// A "yes" rests on the contract of `verify::verify`; watch lists and hashes are there for speed and nothing else.
#![tactic(auto)]

mod chains;
pub mod check;
mod clauses;
pub mod input;
mod lexer;
mod propagate;
pub mod reader;
pub mod statements;
mod trail;
pub mod verify;
mod watches;
