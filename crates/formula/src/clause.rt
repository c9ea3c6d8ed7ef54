// Clauses in lent memory: rows of literals, and the place of one in a table as a value.
ghost use Rattle.std.specs.Prelude.{◌≡◌, take, drop};
ghost use Rattle.std.proofs.lemmas.List.Edits.{sets};
ghost use Rattle.formula.specs.Logic.{has};
ghost use Rattle.formula.specs.Arena.{clause_row};

use crate::table::{part, put, write_row};

// Where a clause stands in a table, and how long it is.
#[derive(Clone, Copy)]
pub struct Place {
    pub start: u64,
    pub len: u64,
}

// The literals of the clause at a place.
pub fn literals_at(table: &[u64], place: Place) -> &[u64]
    ensures { result.now ≡ take place.len (drop place.start table.now) }
{
    part(table, place.start, place.len)
}

// Whether a literal is in a clause.
pub fn contains(clause: &[u64], lit: u64) -> bool
    ensures { result ≡ has clause.now lit }
{
    clause.iter().any(|x| *x == lit)
}

// The clause written at a place as its length and then its literals.
pub fn store(table: &mut [u64], start: u64, clause: &[u64])
    ensures { table.new ≡ sets table.old start (clause_row clause.now) }
{
    put(table, start, clause.len() as u64);
    write_row(table, start.saturating_add(1), clause);
}
