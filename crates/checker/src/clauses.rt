// Clauses that stand, and the search for one with given literals: `find_copy` promises one that stands
// with the same literals, or that there is none.
ghost use Rattle.std.specs.Prelude.{◌≡◌, true, ◌∷◌, ◌++◌, [], Some, None, IfSome, OnOk, slice_index_or};
ghost use Rattle.formula.specs.Logic.{every, has, same_row};
ghost use Rattle.checker.specs.Standing.{is_copy, copy_at, Found, Deleted};

use crate::chains::Chains;
use formula::clause::contains;
use std::alloc::{AllocError, Global};
use std::iter::successors;

#[derive(Drop)]
pub struct Clauses<'a> {
    // The literals of each clause by its number, or none once it is deleted.
    rows: Vec<Option<&'a [u64]>>,
    chains: Chains,
}

fn is_within(clause: &[u64], other: &[u64]) -> bool
    ensures { result ≡ every (has other.now) clause.now }
{
    clause.iter().all(|lit| contains(other, *lit))
}

#[inline(always)]
fn has_same_literals(clause: &[u64], other: &[u64]) -> bool
    ensures { result ≡ same_row clause.now other.now }
{
    is_within(clause, other) && is_within(other, clause)
}

// Whether a clause that stands has these literals. A match and in line, like the test above, since `scan` asks it of each.
#[inline(always)]
fn is_copy(clause: &[u64], row: Option<&[u64]>) -> bool
    ensures { result ≡ is_copy clause.now row.entry }
{
    matches!(row, Some(row) if has_same_literals(clause, row))
}

impl<'a> Clauses<'a> {
    // No clauses yet, and chains for them.
    pub fn new(heap: Global, chains: Chains) -> Clauses<'a>
        ensures { result.rows.items ≡ [] }
    {
        Clauses {
            rows: Vec::new(heap),
            chains,
        }
    }

    // The literals of a clause, if it stands.
    pub fn get(&self, id: usize) -> Option<&'a [u64]>
        ensures { result ≡ slice_index_or self.now.rows.items id None }
    {
        self.rows.get(id).copied().flatten()
    }

    // The clause that comes next, by number.
    pub fn push(&mut self, clause: &'a [u64]) -> Result<(), AllocError>
        ensures { OnOk result (self.new.rows.items ≡ self.old.rows.items ++ Some clause.entry ∷ []) }
    {
        self.chains.push(clause)?;
        self.rows.push(Some(clause))?;
        Ok(())
    }

    // By a look at each, so that nothing rests on the hashes.
    fn scan(&self, clause: &[u64]) -> Option<usize>
        ensures { Found self.now.rows.items clause.now result }
    {
        self.rows.iter().position(|row| is_copy(clause, *row))
    }

    // By its chain, the latest first. A chain is no longer than all that there are, so that the search for one ends.
    fn lookup(&self, clause: &[u64]) -> Option<usize>
        ensures { IfSome result (λ i. copy_at self.now.rows.items clause.now i ≡ true) }
    {
        successors(self.chains.latest(clause), |id| self.chains.before(*id))
            .take(self.rows.len())
            .find(|id| is_copy(clause, self.get(*id)))
    }

    // One that stands with these literals, by its chain, and if that has none by a look at each.
    fn find_copy(&self, clause: &[u64]) -> Option<usize>
        ensures { Found self.now.rows.items clause.now result }
    {
        match self.lookup(clause) {
            Some(id) => Some(id),
            None => self.scan(clause),
        }
    }

    // One clause with these literals no longer stands, if one does.
    pub fn delete(&mut self, clause: &[u64])
        ensures { Deleted clause.now self.old.rows.items self.new.rows.items }
    {
        if let Some(id) = self.find_copy(clause) {
            self.rows[id] = None;
        }
    }
}
