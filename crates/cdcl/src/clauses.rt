// Clauses added: what is learned gets the next number, and its first two literals are watched.
// Each function promises just what its definition says, on any table.
ghost use Rattle.std.specs.Prelude.{◌≡◌, ◌<◌, ◌≤◌};
ghost use Rattle.cdcl.specs.Clauses.{num_clauses, next_clause, has_room, copied, stored, watched, attached};

use crate::analyze_conflict::{learned_len, learned_lit};
use crate::scalar::Scalar;
use crate::watch::*;
use crate::work::*;

// Numbers begin at 1, and where a clause ends the next begins.
const MOST_CLAUSES: u64 = CLAUSE_NUMBERS - 2;

fn num_clauses(work: &[u64]) -> u64
    ensures { result ≡ num_clauses work.now }
{
    Scalar::NumClauses.read(work).min(MOST_CLAUSES)
}

// The number of the next clause.
pub(crate) fn next_clause(work: &[u64]) -> u64
    ensures result { result ≡ next_clause work.now }
    ensures bound { result ≤ 20479 }
{
    num_clauses(work) + 1
}

// Whether there is room for what is learned.
pub(crate) fn has_room(work: &[u64]) -> bool
    ensures { result ≡ has_room work.now }
{
    num_clauses(work) < MOST_CLAUSES
        && start_of(work, next_clause(work)) + learned_len(work) <= MOST_LITS
}

#[tactic(auto, using(crate::proofs::Loops::looping))]
fn copy_learned(work: &mut [u64], start: u64)
    requires { start ≤ 106752 }
    ensures { work.new ≡ copied start work.old }
{
    for i in 0..learned_len(work) {
        let lit = learned_lit(work, i);
        LITS.write(work, start + i, lit);
    }
}

// What is learned becomes the next clause.
#[tactic(auto, unfolding(crate::specs::Clauses::stored))]
pub(crate) fn store_learned(work: &mut [u64])
    ensures { work.new ≡ stored work.old }
{
    let clause = next_clause(work);
    let start = start_of(work, clause);
    let end = start + learned_len(work);
    copy_learned(work, start);
    STARTS.write(work, clause + 1, end);
    Scalar::NumClauses.write(work, clause);
}

fn watch(work: &mut [u64], slot: Slot)
    ensures { work.new ≡ watched work.old slot }
{
    let lit = slot.literal(work);
    let first = slot_at(work, lit);
    put_in_front(work, lit, slot, first);
}

// The first two literals of a clause are watched.
#[tactic(auto, unfolding(crate::specs::Clauses::attached))]
pub(crate) fn attach(work: &mut [u64], clause: u64)
    requires { clause < 20480 }
    ensures { work.new ≡ attached work.old clause }
{
    watch(work, Slot::of(clause, 0));
    watch(work, Slot::of(clause, 1));
}
