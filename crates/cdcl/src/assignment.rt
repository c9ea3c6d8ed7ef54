// The assignment and its trail: literals made true one after another, each with a level and a reason, and taken back from the end.
// Each function promises just what its definition says, on any table.
ghost use Rattle.std.specs.Prelude.{◌≡◌, ◌+◌, ◌-◌, ◌%◌};
ghost use Rattle.cdcl.specs.Assignment.{size_of, queue_of, level_of, with_queue, is_true, is_false, lit_level, trail_lit, assigned, enqueue, deeper, last_lit, popped, is_above, cut, backjump};

use crate::scalar::Scalar;
use crate::vsids::heap_insert;
use crate::work::*;
use formula::literal::{is_negated, opposite, variable};

const MOST_LEVELS: u64 = 17408;

// A variable's values; any other number is none.
pub(crate) const TRUE: u64 = 2;

pub(crate) const FALSE: u64 = 3;

const NONE: u64 = 0;

pub(crate) fn trail_size(work: &[u64]) -> u64
    ensures { result ≡ size_of work.now }
{
    Scalar::TrailSize.read(work).min(MOST_VARS)
}

// So many literals of the trail have been propagated.
pub(crate) fn queue(work: &[u64]) -> u64
    ensures { result ≡ queue_of work.now }
{
    Scalar::Queue.read(work).min(MOST_VARS)
}

pub(crate) fn set_queue(work: &mut [u64], queue: u64)
    ensures { work.new ≡ with_queue work.old queue }
{
    Scalar::Queue.write(work, queue)
}

pub(crate) fn level(work: &[u64]) -> u64
    ensures { result ≡ level_of work.now }
{
    Scalar::Level.read(work).min(MOST_LEVELS)
}

pub(crate) fn trail_lit(work: &[u64], place: u64) -> u64
    ensures { result ≡ trail_lit work.now place }
{
    TRAIL.read(work, place)
}

// The value of a variable that makes the literal true.
fn value_for(lit: u64) -> u64
    ensures { result ≡ 2 + lit % 2 }
{
    if is_negated(lit) { FALSE } else { TRUE }
}

pub(crate) fn is_true(work: &[u64], lit: u64) -> bool
    ensures { result ≡ is_true work.now lit }
{
    VALUES.read(work, variable(lit)) == value_for(lit)
}

pub(crate) fn is_false(work: &[u64], lit: u64) -> bool
    ensures { result ≡ is_false work.now lit }
{
    is_true(work, opposite(lit))
}

pub(crate) fn lit_level(work: &[u64], lit: u64) -> u64
    ensures { result ≡ lit_level work.now lit }
{
    LEVELS.read(work, variable(lit))
}

fn assign(work: &mut [u64], lit: u64, reason: Option<u64>)
    ensures { work.new ≡ assigned work.old lit reason }
{
    let level = level(work);
    VALUES.write(work, variable(lit), value_for(lit));
    LEVELS.write(work, variable(lit), level);
    REASONS.write(work, variable(lit), reason.unwrap_or(0));
}

// The literal becomes true, at the level now, by a clause or decided.
pub(crate) fn enqueue(work: &mut [u64], lit: u64, reason: Option<u64>)
    ensures { work.new ≡ enqueue work.old lit reason }
{
    let size = trail_size(work);
    assign(work, lit, reason);
    TRAIL.write(work, size, lit);
    Scalar::TrailSize.write(work, size + 1);
}

fn is_above(work: &[u64], to: u64) -> bool
    ensures { result ≡ is_above work.now to }
{
    0 < trail_size(work) && to < lit_level(work, last_lit(work))
}

fn last_lit(work: &[u64]) -> u64
    ensures { result ≡ last_lit work.now }
{
    trail_lit(work, trail_size(work).saturating_sub(1))
}

// 1 if the variable is true by the literal.
fn phase_of(lit: u64) -> u64
    ensures { result ≡ 1 - lit % 2 }
{
    u64::from(!is_negated(lit))
}

// The last literal loses its value.
fn pop(work: &mut [u64])
    ensures { work.new ≡ popped work.old }
{
    let lit = last_lit(work);
    let size = trail_size(work);
    Scalar::TrailSize.write(work, size.saturating_sub(1));
    VALUES.write(work, variable(lit), NONE);
    PHASES.write(work, variable(lit), phase_of(lit));
    heap_insert(work, variable(lit));
}

// All literals of higher levels lose their values.
#[tactic(auto, using(crate::proofs::Trails::cutting))]
fn cut(work: &mut [u64], to: u64)
    ensures { work.new ≡ cut (size_of work.old) work.old to }
{
    for _ in 0..trail_size(work) {
        if !is_above(work, to) {
            return;
        }
        pop(work);
    }
}

// Back to a level.
pub(crate) fn backjump(work: &mut [u64], to: u64)
    ensures { work.new ≡ backjump work.old to }
{
    cut(work, to);
    let size = trail_size(work);
    set_queue(work, size);
    Scalar::Level.write(work, to);
}

// A level more, with no literal yet.
pub(crate) fn go_deeper(work: &mut [u64])
    ensures { work.new ≡ deeper work.old }
{
    let next = level(work) + 1;
    Scalar::Level.write(work, next);
}
