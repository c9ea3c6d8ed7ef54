// A conflict above the first level: a clause is learned from it, and forces its first literal after the jump back.
// Each function promises just what its definition says, on any table.
ghost use Rattle.std.specs.Prelude.{◌≡◌, nat_lt};
ghost use Rattle.cdcl.specs.Analysis.{learned_len};
ghost use Rattle.cdcl.specs.Learning.{kept, with_lesson, taken, learn_from};

use crate::analyze_conflict::*;
use crate::assignment::{backjump, enqueue};
use crate::clauses::*;
use crate::vsids::grow_increment;

pub(crate) fn is_long(work: &[u64]) -> bool
    ensures { result ≡ nat_lt 1 (learned_len work.now) }
{
    1 < learned_len(work)
}

// What is learned is stored, and watched if it has two literals.
pub(crate) fn keep(work: &mut [u64])
    ensures { work.new ≡ kept work.old }
{
    let clause = next_clause(work);
    let long = is_long(work);
    store_learned(work);
    if long {
        attach(work, clause);
    }
}

fn keep_and_force(work: &mut [u64])
    ensures { work.new ≡ with_lesson work.old }
{
    let clause = next_clause(work);
    let lit = learned_lit(work, 0);
    keep(work);
    enqueue(work, lit, Some(clause));
}

// A clause that has no room is forgotten.
fn take_lesson(work: &mut [u64])
    ensures { work.new ≡ taken work.old }
{
    if has_room(work) {
        keep_and_force(work);
    }
}

// From a false clause to what is learned, back, and on.
#[tactic(auto, unfolding(crate::specs::Learning::learn_from))]
pub(crate) fn learn_from(work: &mut [u64], clause: u64)
    ensures { work.new ≡ learn_from work.old clause }
{
    analyze_conflict(work, clause);
    let level = jump_level(work);
    backjump(work, level);
    take_lesson(work);
    grow_increment(work);
}
