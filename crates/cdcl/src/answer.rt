// What an answer is told by: the assumptions by which one is false, and values as literals.
// Each function promises just what its definition says, on any table.
ghost use Rattle.std.specs.Prelude.{◌≡◌, nat_lt};
ghost use Rattle.formula.specs.Logic.{pick};
ghost use Rattle.cdcl.specs.Assignment.{backjump};
ghost use Rattle.cdcl.specs.Answering.{failed_by, is_in_core, model_lit};

use crate::analyze_conflict::*;
use crate::assignment::*;
use crate::work::MOST_VARS;
use formula::literal::{literal, variable};

// Assumptions and decisions are taken back; what is so at the first level stays.
pub fn restart(work: &mut [u64])
    ensures { work.new ≡ backjump work.old 0 }
{
    backjump(work, 0)
}

// From a false assumption back to those by which it is.
#[tactic(auto, unfolding(crate::specs::Answering::failed_by))]
pub fn analyze_failed(work: &mut [u64], lit: u64)
    ensures { work.new ≡ failed_by work.old lit }
{
    start(work);
    mark_one(work, 1, lit);
    walk_back(work, 1, Until::Decisions);
}

// Whether an assumption has a part in the failing of another, once that is analyzed.
pub fn is_in_core(work: &[u64], failed: u64, lit: u64) -> bool
    ensures { result ≡ is_in_core work.now failed lit }
{
    lit == failed
        || (is_true(work, lit) && (is_marked(work, variable(lit)) && reason(work, lit).is_none()))
}

// The literal of a variable that is true, if all have values; 0 for one that cannot be.
pub fn model_literal(work: &[u64], var: u64) -> u64
    ensures { result ≡ pick (nat_lt var 16384) (model_lit work.now var) 0 }
{
    if var >= MOST_VARS {
        return 0;
    }
    let positive = literal(var, false);
    literal(var, !is_true(work, positive))
}
