// The text form of formulas and proofs, read and written byte by byte.
// It promises that what is written is read back as what it was.
#![tactic(auto)]

ghost use Rattle.dimacs.specs.Statements.{ThereAndBack};

mod header;
pub mod read;
pub mod rows;
mod scan;
pub mod write;

// A formula that is written is read as what it was.
pub fn there_and_back()
    ensures { ThereAndBack }
{}
