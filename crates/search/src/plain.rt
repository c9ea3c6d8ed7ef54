// Plain search: variables in order, false first, back one level at a time.
// A turn is a `look` and then an `act`; each promises just what its definition says, on any table.
ghost use Rattle.std.specs.Prelude.{◌≡◌, ◌<◌, ◌≤◌, not, ltb, ◌==◌, nat_lt};
ghost use Rattle.std.specs.List.{position_from};
ghost use Rattle.formula.specs.Arena.{clauses_in};
ghost use Rattle.formula.specs.Logic.{pick, every, none_of};
ghost use Rattle.search.specs.Ends.{SearchEnds};
ghost use Rattle.search.specs.Plain.{depth_of, goes_back, value_of, fresh, lit_false, some_false, look, act, marked, model_lit};

use crate::clauses::Clauses;
use formula::literal::{is_negated, literal, variable};
use formula::table::{get, put};

// The table's cells.
const DEPTH: u64 = 0;

const DIRECTION: u64 = 1;

const VALUES: u64 = 256;

const MOST_VARS: u64 = 16384;

// The two directions.
const FORWARD: u64 = 0;

const BACK: u64 = 1;

// The two values.
const FALSE: u64 = 1;

const TRUE: u64 = 2;

// The mark on an assumption of the core.
const MARKED: u64 = 1;

// What there is to do.
#[derive(Clone, Copy)]
pub enum Finding {
    // Both values of the first variable have failed.
    Exhausted,
    // The last value has failed.
    Back,
    // A clause is false.
    Conflict,
    // No clause is, but the assumption at this place.
    Failed(u64),
    // A variable has no value yet.
    Open,
    // All have one: a model.
    Full,
}

// Plain search comes to an end, with a model or with a core.
pub fn plain_search_ends()
    ensures { SearchEnds }
{}

// So many variables have a value.
fn depth_of(work: &[u64]) -> u64
    ensures { result ≡ depth_of work.now }
{
    get(work, DEPTH).min(MOST_VARS)
}

fn is_going_back(work: &[u64]) -> bool
    ensures { result ≡ goes_back work.now }
{
    get(work, DIRECTION) == BACK
}

// Whether the value of a variable is false.
fn has_value_false(work: &[u64], var: u64) -> bool
    requires { var < 16384 }
    ensures { result ≡ (value_of work.now var == 1) }
{
    get(work, VALUES + var) == FALSE
}

// No variable has a value.
pub fn start(work: &mut [u64])
    ensures { work.new ≡ fresh work.old }
{
    put(work, DEPTH, 0);
    put(work, DIRECTION, FORWARD);
}

// The values that a table gives to the variables below `depth`.
#[derive(Clone, Copy)]
struct Assignment<'a> {
    work: &'a [u64],
    depth: u64,
    ghost bounded: { depth ≤ 16384 },
}

impl Assignment<'_> {
    fn is_false(&self, lit: u64) -> bool
        ensures { result ≡ lit_false self.now.depth self.now.work.now lit }
    {
        let var = variable(lit);
        var < self.depth && has_value_false(self.work, var) != is_negated(lit)
    }

    fn all_false(&self, clause: &[u64]) -> bool
        ensures { result ≡ every (lit_false self.now.depth self.now.work.now) clause.now }
    {
        clause.iter().all(|lit| self.is_false(*lit))
    }

    // Whether all literals of one of the clauses are false.
    fn some_false(&self, arena: &[u64], count: u64) -> bool
        ensures { result ≡ some_false self.now.depth self.now.work.now (clauses_in count arena.now) }
    {
        Clauses::new(arena, count).any(|clause| self.all_false(clause))
    }

    // The place of the first assumption that is false.
    fn first_failed(&self, assumptions: &[u64]) -> Option<usize>
        ensures { result ≡ position_from (lit_false self.now.depth self.now.work.now) 0 assumptions.now }
    {
        assumptions.iter().position(|lit| self.is_false(*lit))
    }
}

// What is found where nothing is false.
fn open_or_full(depth: u64, num_vars: u64) -> Finding
    ensures { result ≡ pick (ltb depth num_vars) Finding.Open Finding.Full }
{
    if depth < num_vars {
        Finding::Open
    } else {
        Finding::Full
    }
}

// What there is to do about `count` clauses and the assumptions.
#[tactic(auto, using(crate::proofs::Scans::first_failed_some, crate::proofs::Scans::first_failed_none), unfolding(crate::specs::Plain::look))]
pub fn look(arena: &[u64], count: u64, assumptions: &[u64], num_vars: u64, work: &[u64]) -> Finding
    ensures { result ≡ look (clauses_in count arena.now) assumptions.now num_vars work.now }
{
    let depth = depth_of(work);
    if is_going_back(work) {
        return if depth == 0 {
            Finding::Exhausted
        } else {
            Finding::Back
        };
    }
    let assignment = Assignment { work, depth };
    if assignment.some_false(arena, count) {
        return Finding::Conflict;
    }
    match assignment.first_failed(assumptions) {
        Some(i) => Finding::Failed(i as u64),
        None => open_or_full(depth, num_vars),
    }
}

// From false to true, or one level up.
fn go_back(work: &mut [u64])
    ensures { work.new ≡ act work.old Finding.Back }
{
    let last = depth_of(work).saturating_sub(1);
    if has_value_false(work, last) {
        put(work, VALUES + last, TRUE);
        put(work, DIRECTION, FORWARD);
    } else {
        put(work, DEPTH, last);
    }
}

// The next variable becomes false, one level deeper.
fn go_deeper(work: &mut [u64])
    ensures { work.new ≡ act work.old Finding.Open }
{
    let depth = depth_of(work);
    put(work, VALUES + depth, FALSE);
    put(work, DEPTH, depth + 1);
}

// What is done about a finding.
pub fn act(work: &mut [u64], finding: Finding)
    ensures { work.new ≡ act work.old finding }
{
    match finding {
        Finding::Exhausted | Finding::Full => {}
        Finding::Back => go_back(work),
        Finding::Conflict | Finding::Failed(_) => put(work, DIRECTION, BACK),
        Finding::Open => go_deeper(work),
    }
}

// The literal of a variable that is true in the model; 0 for one that cannot be.
pub fn model_literal(work: &[u64], var: u64) -> u64
    ensures { result ≡ pick (nat_lt var 16384) (model_lit work.now var) 0 }
{
    if var >= MOST_VARS {
        return 0;
    }
    literal(var, has_value_false(work, var))
}

// Whether an assumption is marked.
pub fn some_marked(marks: &[u64], assumptions: &[u64]) -> bool
    ensures { result ≡ not (none_of (marked marks.now assumptions.now)) }
{
    let len = marks.len().min(assumptions.len());
    marks[..len].iter().any(|mark| *mark == MARKED)
}
