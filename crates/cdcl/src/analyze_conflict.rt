// From a conflict to a clause: the walk back over the trail to the first unique implication point, and for a failed core to decisions.
// Each function promises just what its definition says, on any table.
ghost use Rattle.std.specs.Prelude.{◌≡◌, ◌+◌, ◌-◌, ◌/◌, ◌≤◌, ◌==◌};
ghost use Rattle.formula.specs.Logic.{or};
ghost use Rattle.cdcl.specs.Work.{Gives, outcome};
ghost use Rattle.cdcl.specs.Assignment.{size_of, lit_level};
ghost use Rattle.cdcl.specs.Learning.{lesson, jump_level};
ghost use Rattle.cdcl.specs.Analysis.{stamp, is_marked, learned_len, open_count, push, with_mark, involved, mark_one, mark_clause, reason_of, goes_on, resolving, resolve, walk_back, highest, cleared_marks, next_stamp, started, clause_level, analyzed, swapped, last_first, is_covered, all_covered, is_spare, keep_needed, minimized, higher_place, peak, second_highest, learned_lit};

use crate::assignment::*;
use crate::scalar::Scalar;
use crate::vsids::bump;
use crate::watch::{literal_at, numbered, places};
use crate::work::*;
use formula::literal::{opposite, variable};
use std::ops::Range;

const MOST_STAMPS: u64 = 1 << 62;

const MOST_OPEN: u64 = 65536;

// How long the walk back resolves literals of the level by their reasons.
#[derive(Clone, Copy)]
pub(crate) enum Until {
    // One is left, the first unique implication point.
    FirstPoint,
    // Only decisions are left.
    Decisions,
}

impl Until {
    // Whether to go on while so many literals are still to come.
    fn goes_on(self, left: u64) -> bool
        ensures { result ≡ goes_on self left }
    {
        match self {
            Until::FirstPoint => left >= 2,
            Until::Decisions => true,
        }
    }
}

pub(crate) fn stamp(work: &[u64]) -> u64
    ensures { result ≡ stamp work.now }
{
    Scalar::Stamp.read(work).min(MOST_STAMPS)
}

pub(crate) fn is_marked(work: &[u64], var: u64) -> bool
    ensures { result ≡ is_marked work.now var }
{
    MARKS.read(work, var) == stamp(work)
}

pub(crate) fn learned_len(work: &[u64]) -> u64
    ensures { result ≡ learned_len work.now }
{
    Scalar::LearnedLen.read(work).min(MOST_LEARNED)
}

// So many marked literals of the level are still to come.
fn open_count(work: &[u64]) -> u64
    ensures { result ≡ open_count work.now }
{
    Scalar::OpenCount.read(work).min(MOST_OPEN)
}

// The clause by which a literal is true; none for a decision.
pub(crate) fn reason(work: &[u64], lit: u64) -> Option<u64>
    ensures { result ≡ reason_of work.now lit }
{
    numbered(REASONS.read(work, variable(lit)))
}

// The literal comes into the clause.
pub(crate) fn push(work: &mut [u64], lit: u64)
    ensures { work.new ≡ push work.old lit }
{
    let len = learned_len(work);
    LEARNED_LITS.write(work, len, lit);
    Scalar::LearnedLen.write(work, len + 1);
}

pub(crate) fn mark(work: &mut [u64], var: u64)
    ensures { work.new ≡ with_mark work.old var }
{
    let stamp = stamp(work);
    MARKS.write(work, var, stamp);
}

// A variable that is marked had a part in the conflict.
fn involve(work: &mut [u64], var: u64)
    ensures { work.new ≡ involved work.old var }
{
    mark(work, var);
    bump(work, var);
}

fn is_settled(work: &[u64], lit: u64) -> bool
    ensures { result ≡ or (is_marked work.now (lit / 2)) (lit_level work.now lit == 0) }
{
    is_marked(work, variable(lit)) || lit_level(work, lit) == 0
}

// A false literal of a clause that is taken in.
#[tactic(auto, unfolding(crate::specs::Analysis::mark_one))]
pub(crate) fn mark_one(work: &mut [u64], level: u64, lit: u64)
    ensures { work.new ≡ mark_one level work.old lit }
{
    if is_settled(work, lit) {
        return;
    }
    if level <= lit_level(work, lit) {
        let open = open_count(work);
        involve(work, variable(lit));
        Scalar::OpenCount.write(work, open + 1);
    } else {
        involve(work, variable(lit));
        push(work, lit);
    }
}

// All literals of a clause are taken in.
fn mark_clause(work: &mut [u64], level: u64, clause: u64)
    ensures { work.new ≡ mark_clause level work.old clause }
{
    for place in places(work, clause) {
        let lit = literal_at(work, place);
        mark_one(work, level, lit);
    }
}

// The reason by which a literal is resolved, if it is.
fn resolving(work: &[u64], until: Until, lit: u64) -> Option<u64>
    ensures { result ≡ resolving until work.now lit }
{
    if until.goes_on(open_count(work)) {
        reason(work, lit)
    } else {
        None
    }
}

// A literal of the trail, resolved by its reason or said in the clause if it is marked.
#[tactic(auto, unfolding(crate::specs::Analysis::resolve))]
fn resolve(work: &mut [u64], level: u64, until: Until, lit: u64)
    ensures { work.new ≡ resolve level until work.old lit }
{
    if !is_marked(work, variable(lit)) {
        return;
    }
    let by = resolving(work, until, lit);
    let open = open_count(work).saturating_sub(1);
    Scalar::OpenCount.write(work, open);
    match by {
        Some(clause) => mark_clause(work, level, clause),
        None => push(work, opposite(lit)),
    }
}

// The trail from its end down, as long as the level is high enough.
#[tactic(auto, using(crate::proofs::Trails::walking_back))]
pub(crate) fn walk_back(work: &mut [u64], level: u64, until: Until)
    ensures { work.new ≡ walk_back (size_of work.old) level until work.old }
{
    for place in (0..trail_size(work)).rev() {
        let lit = trail_lit(work, place);
        if lit_level(work, lit) < level {
            return;
        }
        resolve(work, level, until, lit);
    }
}

// The highest level of a table's literals at these places.
fn highest_level(work: &[u64], table: Table, places: Range<u64>) -> u64
    ensures { result ≡ highest table (places.end - places.start) places.start work.now }
{
    places.fold(
        0,
        |level, place| lit_level(work, table.read(work, place)).max(level),
    )
}

#[tactic(auto, using(crate::proofs::Loops::looping))]
fn clear_marks(work: &mut [u64])
    ensures { work.new ≡ cleared_marks work.old }
{
    for var in 0..MOST_VARS {
        MARKS.write(work, var, 0);
    }
}

// No variable is marked.
fn next_stamp(work: &mut [u64])
    ensures { work.new ≡ next_stamp work.old }
{
    let stamp = stamp(work);
    if stamp < MOST_STAMPS {
        Scalar::Stamp.write(work, stamp + 1);
    } else {
        clear_marks(work);
        Scalar::Stamp.write(work, 1);
    }
}

pub(crate) fn start(work: &mut [u64])
    ensures { work.new ≡ started work.old }
{
    next_stamp(work);
    Scalar::LearnedLen.write(work, 0);
    Scalar::OpenCount.write(work, 0);
}

// The highest level of a clause's literals.
pub(crate) fn clause_level(work: &[u64], clause: u64) -> u64
    ensures { result ≡ clause_level work.now clause }
{
    highest_level(work, LITS, places(work, clause))
}

// From a false clause back over the trail.
#[tactic(auto, unfolding(crate::specs::Analysis::analyzed))]
fn analyze(work: &mut [u64], level: u64, clause: u64)
    ensures { work.new ≡ analyzed level work.old clause }
{
    start(work);
    mark_clause(work, level, clause);
    walk_back(work, level, Until::FirstPoint);
}

pub(crate) fn learned_lit(work: &[u64], place: u64) -> u64
    ensures { result ≡ learned_lit work.now place }
{
    LEARNED_LITS.read(work, place)
}

pub(crate) fn swap(work: &mut [u64], place: u64, other: u64)
    ensures { work.new ≡ swapped work.old place other }
{
    let first = learned_lit(work, place);
    let second = learned_lit(work, other);
    LEARNED_LITS.write(work, place, second);
    LEARNED_LITS.write(work, other, first);
}

fn is_covered(work: &[u64], var: u64, lit: u64) -> bool
    ensures { result ≡ is_covered work.now var lit }
{
    variable(lit) == var || (lit_level(work, lit) == 0 || is_marked(work, variable(lit)))
}

// Whether the other literals of the variable's reason are in the clause, or false at the first level.
fn all_covered(work: &[u64], clause: u64, var: u64) -> bool
    ensures { result ≡ all_covered work.now clause var }
{
    places(work, clause).all(|place| is_covered(work, var, literal_at(work, place)))
}

fn is_spare(work: &[u64], level: u64, lit: u64) -> bool
    ensures { result ≡ is_spare level work.now lit }
{
    lit_level(work, lit) < level
        && reason(work, lit).is_some_and(|clause| all_covered(work, clause, variable(lit)))
}

// A literal that has to stay, moved down; and how many there are by then.
fn keep_needed(work: &mut [u64], level: u64, place: u64, len: u64) -> u64
    requires { len ≤ 16640 }
    ensures gives { Gives (keep_needed level (outcome work.old len) place) work.new result }
    ensures bound { result ≤ len + 1 }
{
    let lit = learned_lit(work, place);
    if is_spare(work, level, lit) {
        return len;
    }
    LEARNED_LITS.write(work, len, lit);
    len + 1
}

// The literals that have to stay, moved together.
#[tactic(auto, using(crate::proofs::Loops::looping))]
fn minimize(work: &mut [u64], level: u64)
    ensures { work.new ≡ minimized level work.old }
{
    let mut len: u64 = 0;
    for i in 0..learned_len(work) {
        len = keep_needed(work, level, i, len);
    }
    Scalar::LearnedLen.write(work, len);
}

fn higher_place(work: &[u64], best: u64, place: u64) -> u64
    ensures { result ≡ higher_place work.now best place }
{
    if lit_level(work, learned_lit(work, best)) < lit_level(work, learned_lit(work, place)) {
        place
    } else {
        best
    }
}

// The place of a literal of the highest level but the first.
fn peak(work: &[u64]) -> u64
    ensures { result ≡ peak work.now }
{
    (1..learned_len(work)).fold(1, |best, place| higher_place(work, best, place))
}

#[tactic(auto, unfolding(crate::specs::Analysis::second_highest))]
fn put_second(work: &mut [u64])
    ensures { work.new ≡ second_highest work.old }
{
    if 1 < learned_len(work) {
        let place = peak(work);
        swap(work, 1, place);
    }
}

fn put_last_first(work: &mut [u64])
    ensures { work.new ≡ last_first work.old }
{
    let last = learned_len(work).saturating_sub(1);
    swap(work, 0, last);
}

// The clause that is learned from a false one.
#[tactic(auto, unfolding(crate::specs::Learning::lesson))]
pub(crate) fn analyze_conflict(work: &mut [u64], clause: u64)
    ensures { work.new ≡ lesson work.old clause }
{
    let level = clause_level(work, clause);
    analyze(work, level, clause);
    put_last_first(work);
    minimize(work, level);
    put_second(work);
}

// The highest level of what is learned but for its first literal.
pub(crate) fn jump_level(work: &[u64]) -> u64
    ensures { result ≡ jump_level work.now }
{
    highest_level(work, LEARNED_LITS, 1..learned_len(work))
}
