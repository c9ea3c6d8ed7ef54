// A clause of the formula taken in, at the first level: repeats dropped, tautologies left out, literals that aren't false first.
// Each function promises just what its definition says, on any table.
ghost use Rattle.std.specs.Prelude.{◌≡◌};
ghost use Rattle.cdcl.specs.Work.{Gives};
ghost use Rattle.cdcl.specs.Loading.{with_lit, repeats, collect, open_from, with_open_at, arranged, is_falsified, is_forced, taken_in, load};

use crate::analyze_conflict::*;
use crate::assignment::*;
use crate::clauses::{has_room, next_clause};
use crate::learn::{is_long, keep};
use formula::literal::variable;

// What became of a clause.
#[derive(Clone, Copy)]
pub enum Loaded {
    Kept,
    // It has this number, and all its literals are false.
    False(u64),
    NoRoom,
}

// Whether the literal is among those collected.
fn repeats(work: &[u64], lit: u64) -> bool
    ensures { result ≡ repeats work.now lit }
{
    (0..learned_len(work)).any(|i| learned_lit(work, i) == lit)
}

fn add_literal(work: &mut [u64], lit: u64)
    ensures { work.new ≡ with_lit work.old lit }
{
    mark(work, variable(lit));
    push(work, lit);
}

// The literals of a clause, each once; true if one stands beside its other.
#[tactic(auto, using(crate::proofs::Loads::collecting))]
fn collect(work: &mut [u64], clause: &[u64]) -> bool
    ensures { Gives (collect work.old clause.now) work.new result }
{
    for lit in clause {
        if !is_marked(work, variable(*lit)) {
            add_literal(work, *lit);
        } else if !repeats(work, *lit) {
            return true;
        }
    }
    false
}

// The first place from this one on whose literal isn't false.
fn open_from(work: &[u64], place: u64) -> Option<u64>
    ensures { result ≡ open_from place work.now }
{
    (place..learned_len(work)).find(|&i| !is_false(work, learned_lit(work, i)))
}

// A literal that isn't false comes to the place, if there is one from there on.
fn put_open(work: &mut [u64], place: u64)
    ensures { work.new ≡ with_open_at place work.old }
{
    let open = open_from(work, place).unwrap_or(place);
    swap(work, place, open);
}

fn arrange(work: &mut [u64])
    ensures { work.new ≡ arranged work.old }
{
    let long = is_long(work);
    put_open(work, 0);
    if long {
        put_open(work, 1);
    }
}

fn is_falsified(work: &[u64]) -> bool
    ensures { result ≡ is_falsified work.now }
{
    learned_len(work) == 0 || is_false(work, learned_lit(work, 0))
}

fn is_forced(work: &[u64]) -> bool
    ensures { result ≡ is_forced work.now }
{
    !is_true(work, learned_lit(work, 0))
        && (learned_len(work) <= 1 || is_false(work, learned_lit(work, 1)))
}

// What is collected becomes the next clause.
#[tactic(auto, unfolding(crate::specs::Loading::taken_in))]
fn take_in(work: &mut [u64]) -> Loaded
    ensures { Gives (taken_in work.old) work.new result }
{
    if !has_room(work) {
        return Loaded::NoRoom;
    }
    let clause = next_clause(work);
    let first = learned_lit(work, 0);
    let falsified = is_falsified(work);
    let forced = is_forced(work);
    keep(work);
    if falsified {
        return Loaded::False(clause);
    }
    if forced {
        enqueue(work, first, Some(clause));
    }
    Loaded::Kept
}

// A clause of the formula is taken in.
#[tactic(auto, unfolding(crate::specs::Loading::load))]
pub fn load(work: &mut [u64], clause: &[u64]) -> Loaded
    ensures { Gives (load work.old clause.now) work.new result }
{
    start(work);
    if collect(work, clause) {
        return Loaded::Kept;
    }
    arrange(work);
    take_in(work)
}
