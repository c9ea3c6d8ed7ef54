// The check of a proof, step by step. `check_steps` promises of `Verified` that all steps hold, as the
// definition has it, and that one of them adds the empty clause.
ghost use Rattle.std.specs.Prelude.{◌≡◌, ◌+◌, ◌^◌, ◌<◌, true, [], ◌∷◌, ◌++◌, Some, IfOk, OnOk};
ghost use Rattle.formula.specs.Logic.{adds, has_empty};
ghost use Rattle.checker.specs.Input.{step_of, formula_of, steps_of};
ghost use Rattle.checker.specs.Going.{Going, GoesOn};
ghost use Rattle.checker.specs.Right.{Right};

use crate::chains::Chains;
use crate::clauses::Clauses;
use crate::input::{Action, Input, ProofStep};
use crate::propagate::Propagator;
use std::alloc::{AllocError, Global};

#[derive(Clone, Copy, PartialEq, Eq)]
pub enum Verdict {
    Verified,
    // The step that begins in this line does not follow.
    Fails(u64),
    NoEmptyClause,
}

// The clauses that stand after the steps so far, and what finds out whether the next one follows.
#[derive(Drop)]
struct Checker<'a> {
    clauses: Clauses<'a>,
    propagator: Propagator,
}

// Room for the literals of all clauses.
fn literal_count(steps: &[ProofStep]) -> usize {
    let most = steps
        .iter()
        .flat_map(|step| step.clause.iter())
        .copied()
        .max();
    most.unwrap_or(0).saturating_add(2) as usize
}

fn is_empty_clause(step: &ProofStep) -> bool
    ensures { result ≡ true → step_of step.now ≡ adds [] }
{
    step.action == Action::Add && step.clause.is_empty()
}

// Whether the empty clause is added.
fn has_empty_clause(input: &Input) -> bool
    ensures { result ≡ true → has_empty (steps_of input.now) ≡ true }
{
    input.steps.iter().any(is_empty_clause)
}

impl<'a> Checker<'a> {
    // The formula's clauses stand.
    fn new(heap: Global, input: &'a Input) -> Result<Checker<'a>, AllocError>
        ensures { IfOk result (λ k. Going input.now k.clauses.rows.items k.propagator.trail 0) }
    {
        let count = literal_count(&input.formula).max(literal_count(&input.steps));
        let chains = Chains::new(heap, input.formula.len() | input.steps.len())?;
        let mut checker = Checker {
            clauses: Clauses::new(heap, chains),
            propagator: Propagator::new(heap, count)?,
        };
        for step in &input.formula {
            checker.add(step.clause.as_slice())?;
        }
        Ok(checker)
    }

    fn add(&mut self, clause: &'a [u64]) -> Result<(), AllocError>
        ensures rows { OnOk result (self.new.clauses.rows.items ≡ self.old.clauses.rows.items ++ Some clause.entry ∷ []) }
        ensures trail { self.new.propagator.trail ≡ self.old.propagator.trail }
    {
        self.clauses.push(clause)?;
        self.propagator.push(clause)
    }

    // The next step; false if it does not follow.
    fn take_step(&mut self, step: &'a ProofStep) -> Result<bool, AllocError>
        requires { self.old.propagator.trail.round + 1 < 2 ^ 64 }
        ensures { IfOk result (λ b. b ≡ true → GoesOn step.now self.old.clauses.rows.items self.old.propagator.trail self.new.clauses.rows.items self.new.propagator.trail) }
    {
        let clause = step.clause.as_slice();
        match step.action {
            Action::Add => {
                if !self.propagator.follows(&self.clauses, clause)? {
                    return Ok(false);
                }
                self.add(clause)?;
            }
            Action::Delete => self.clauses.delete(clause),
        }
        Ok(true)
    }
}

// Whether each step of the proof follows, and one of them adds the empty clause.
pub fn check_steps(heap: Global, input: &Input) -> Result<Verdict, AllocError>
    ensures { IfOk result (Right (formula_of input.now) (steps_of input.now)) }
{
    let mut checker = Checker::new(heap, input)?;
    for step in &input.steps {
        if !checker.take_step(step)? {
            return Ok(Verdict::Fails(step.line));
        }
    }
    if has_empty_clause(input) {
        Ok(Verdict::Verified)
    } else {
        Ok(Verdict::NoEmptyClause)
    }
}
