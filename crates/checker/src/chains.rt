// Clauses in chains by a hash of their literals, in each the latest first. All of it is there for speed: nothing is
// promised, since a clause is compared before anything rests on it.
use std::alloc::{AllocError, Global};
use std::mem;

// Links are numbers, each one more than that of a clause, and 0 where a chain ends: a place takes one word.
#[derive(Drop)]
pub struct Chains {
    // The link to the latest clause of each chain.
    heads: Vec<usize>,
    // By clause, the link to the one before it in its chain.
    next: Vec<usize>,
}

// The same for each order of the literals.
fn hash(clause: &[u64]) -> u64 {
    clause.iter().fold(0, |sum: u64, lit| {
        let x = lit.wrapping_mul(0x9e37_79b9_7f4a_7c15);
        sum.wrapping_add(x ^ (x >> 29))
    })
}

impl Chains {
    // No clauses, and chains for about so many. A clause goes in at once, however many have its hash.
    pub fn new(heap: Global, count: usize) -> Result<Chains, AllocError> {
        Ok(Chains {
            heads: vec![in heap; 0; count | 1]?,
            next: Vec::new(heap),
        })
    }

    fn bucket(&self, clause: &[u64]) -> usize {
        (hash(clause) as usize)
            .checked_rem(self.heads.len())
            .unwrap_or(0)
    }

    // The clause that comes next, by number.
    pub fn push(&mut self, clause: &[u64]) -> Result<(), AllocError> {
        let bucket = self.bucket(clause);
        let link = self.next.len().wrapping_add(1);
        let before = match self.heads.get_mut(bucket) {
            Some(head) => mem::replace(head, link),
            None => 0,
        };
        self.next.push(before)?;
        Ok(())
    }

    // The latest clause of the chain where this one would be.
    pub fn latest(&self, clause: &[u64]) -> Option<usize> {
        self.heads.get(self.bucket(clause))?.checked_sub(1)
    }

    // The clause before this one in its chain.
    pub fn before(&self, id: usize) -> Option<usize> {
        self.next.get(id)?.checked_sub(1)
    }
}
