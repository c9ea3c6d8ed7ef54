// One turn of the search: propagation to its end, and then a clause learned, an assumption, a decision, or an answer.
// Each function promises just what its definition says, on any table.
ghost use Rattle.std.specs.Prelude.{◌≡◌, ◌<◌, ◌≤◌, ◌==◌};
ghost use Rattle.cdcl.specs.Work.{Gives};
ghost use Rattle.cdcl.specs.Analysis.{clause_level};
ghost use Rattle.cdcl.specs.Deciding.{phase_lit, decided};
ghost use Rattle.cdcl.specs.Turning.{on_conflict, on_assumption, on_decision, on_quiet, turn};

use crate::analyze_conflict::clause_level;
use crate::assignment::*;
use crate::decide::*;
use crate::learn::learn_from;
use crate::propagate::{Conflict, propagate};
use crate::work::MOST_VARS;

// What a turn came to.
#[derive(Clone, Copy)]
pub enum Turn {
    More,
    // All variables have values.
    Full,
    // A clause is false at the first level.
    No,
    // The assumption at this place is false.
    Failed(u64),
}

fn is_first_level(work: &[u64], clause: u64) -> bool
    ensures { result ≡ (clause_level work.now clause == 0) }
{
    clause_level(work, clause) == 0
}

#[tactic(auto, unfolding(crate::specs::Turning::on_conflict))]
fn on_conflict(work: &mut [u64], clause: u64) -> Turn
    ensures { Gives (on_conflict work.old clause) work.new result }
{
    if is_first_level(work, clause) {
        return Turn::No;
    }
    learn_from(work, clause);
    Turn::More
}

#[tactic(auto, unfolding(crate::specs::Turning::on_assumption))]
fn on_assumption(work: &mut [u64], lit: u64) -> Turn
    ensures { Gives (on_assumption work.old lit) work.new result }
{
    if is_true(work, lit) {
        go_deeper(work);
        return Turn::More;
    }
    if is_false(work, lit) {
        return Turn::Failed(level(work));
    }
    decide(work, lit);
    Turn::More
}

fn decide_on(work: &mut [u64], var: u64)
    requires { var < 16384 }
    ensures { work.new ≡ decided work.old (phase_lit work.old var) }
{
    let lit = phase_literal(work, var);
    decide(work, lit);
}

#[tactic(auto, unfolding(crate::specs::Turning::on_decision))]
fn on_decision(work: &mut [u64], num_vars: u64) -> Turn
    requires { num_vars ≤ 16384 }
    ensures { Gives (on_decision num_vars work.old) work.new result }
{
    match heaviest(work, num_vars).or_else(|| first_free(work, num_vars)) {
        Some(var) => {
            decide_on(work, var);
            Turn::More
        }
        None => Turn::Full,
    }
}

fn on_quiet(work: &mut [u64], assumptions: &[u64], num_vars: u64) -> Turn
    requires { num_vars ≤ 16384 }
    ensures { Gives (on_quiet assumptions.now num_vars work.old) work.new result }
{
    match assumptions.get(level(work) as usize) {
        Some(&lit) => on_assumption(work, lit),
        None => on_decision(work, num_vars),
    }
}

// One turn, for the assumptions and so many variables.
#[tactic(auto, unfolding(crate::specs::Turning::turn))]
pub fn take_turn(work: &mut [u64], assumptions: &[u64], num_vars: u64) -> Turn
    ensures { Gives (turn assumptions.now num_vars work.old) work.new result }
{
    if let Err(Conflict { clause }) = propagate(work) {
        return on_conflict(work, clause);
    }
    on_quiet(work, assumptions, num_vars.min(MOST_VARS))
}
