// The next decision: the heaviest variable without a value, with the value that it had last.
// Each function promises just what its definition says, on any table.
ghost use Rattle.std.specs.Prelude.{◌≡◌, ◌<◌, IfSome};
ghost use Rattle.cdcl.specs.Work.{Gives};
ghost use Rattle.cdcl.specs.Deciding.{has_value, is_free, heaviest, first_free, phase_lit, decided};

use crate::assignment::*;
use crate::vsids::{heap_at, heap_len, heap_pop};
use crate::work::*;
use formula::literal::literal;

fn has_value(work: &[u64], var: u64) -> bool
    ensures { result ≡ has_value work.now var }
{
    let value = VALUES.read(work, var);
    value == TRUE || value == FALSE
}

fn is_free(work: &[u64], num_vars: u64, var: u64) -> bool
    ensures { result ≡ is_free num_vars work.now var }
{
    var < num_vars && !has_value(work, var)
}

// The heaviest of so many variables that has no value, taken out of the heap.
#[tactic(auto, using(crate::proofs::Decisions::choosing))]
pub(crate) fn heaviest(work: &mut [u64], num_vars: u64) -> Option<u64>
    ensures gives { Gives (heaviest 16384 num_vars work.old) work.new result }
    ensures bound { IfSome result (λ v. v < num_vars) }
{
    for _ in 0..MOST_VARS {
        if heap_len(work) == 0 {
            return None;
        }
        let var = heap_at(work, 0);
        let free = is_free(work, num_vars, var);
        heap_pop(work);
        if free {
            return Some(var);
        }
    }
    None
}

// The first of so many variables that has no value.
pub(crate) fn first_free(work: &[u64], num_vars: u64) -> Option<u64>
    ensures var { result ≡ first_free num_vars work.now }
    ensures bound { IfSome result (λ v. v < num_vars) }
{
    (0..num_vars).find(|&var| !has_value(work, var))
}

// The literal of a variable by the value that it had last.
pub(crate) fn phase_literal(work: &[u64], var: u64) -> u64
    requires { var < 16384 }
    ensures { result ≡ phase_lit work.now var }
{
    literal(var, PHASES.read(work, var) != 1)
}

// The literal becomes true on a level of its own.
pub(crate) fn decide(work: &mut [u64], lit: u64)
    ensures { work.new ≡ decided work.old lit }
{
    go_deeper(work);
    enqueue(work, lit, None);
}
