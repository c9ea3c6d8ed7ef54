// Decisions by weight: a binary heap of variables, the heaviest first.
// Each function promises just what its definition says, on any table; nothing that is answered rests on it.
ghost use Rattle.std.specs.Prelude.{◌≡◌, ℕ, ◌≤◌, List, Option};
ghost use Rattle.cdcl.specs.Work.{cell, activity};
ghost use Rattle.cdcl.specs.Vsids.{heap_len, heap_at, weight_at, put_node, place_of, above, heavier, below, sift, heap_insert, heap_pop, increment, rescaled, all_rescaled, raised, kept_small, moved_up, bump, grown, first_increment, all_inserted, with_vars};

use crate::scalar::Scalar;
use crate::work::*;
use std::marker::Model;

// A weight above this makes all smaller, by so much; and no number is taken to be above the last.
const LARGE: u64 = 1 << 61;

const SCALE: u64 = 1 << 30;

const FIRST_INCREMENT: u64 = 1 << 30;

const MOST_WEIGHT: u64 = 1 << 62;

// The ways up or down in a heap of all variables.
const ROWS: u64 = 14;

pub(crate) fn heap_len(work: &[u64]) -> u64
    ensures { result ≡ heap_len work.now }
{
    Scalar::HeapLen.read(work).min(MOST_VARS)
}

pub(crate) fn heap_at(work: &[u64], place: u64) -> u64
    ensures { result ≡ heap_at work.now place }
{
    HEAP.read(work, place)
}

fn weight(work: &[u64], var: u64) -> u64
    ensures { result ≡ cell activity work.now var }
{
    ACTIVITY.read(work, var)
}

fn weight_at(work: &[u64], place: u64) -> u64
    ensures { result ≡ weight_at work.now place }
{
    weight(work, heap_at(work, place))
}

// A place in the heap.
#[derive(Clone, Copy)]
struct Node {
    index: u64,
}

impl Model for Node {
    ghost Value = { ℕ };

    ghost view = { λ p. p.index };

    ghost invariant = { λ p. p.index ≤ 65536 };

    ghost inverse = { λ i. record { index = i } };
}

fn put_node(work: &mut [u64], place: Node, var: u64)
    ensures { work.new ≡ put_node work.old place var }
{
    HEAP.write(work, place.index, var);
    HEAP_POS.write(work, var, place.index + 1);
}

// The place of a variable, if it is in the heap.
fn place_of(work: &[u64], var: u64) -> Option<Node>
    ensures { result ≡ place_of work.now var }
{
    match HEAP_POS.read(work, var) {
        0 => None,
        next => Some(Node {
            index: (next - 1).min(MOST_VARS),
        }),
    }
}

// A way through the heap: where a variable goes next from a place, if it does.
trait Way {
    ghost next: { List ℕ → ℕ → ℕ → Option ℕ };

    fn next(work: &[u64], place: Node, var: u64) -> Option<Node>
        ensures { result ≡ next work.now place var };
}

// To the place above, while the variable is heavier than what stands there.
struct Up;

impl Way for Up {
    ghost next = { above };

    fn next(work: &[u64], place: Node, var: u64) -> Option<Node> {
        let parent = Node {
            index: place.index.saturating_sub(1) / 2,
        };
        (0 < place.index && weight_at(work, parent.index) < weight(work, var)).then_some(parent)
    }
}

// To the heavier of the two places below, while the variable is lighter.
struct Down;

impl Way for Down {
    ghost next = { below };

    fn next(work: &[u64], place: Node, var: u64) -> Option<Node> {
        let left = 2 * place.index + 1;
        if left >= heap_len(work) {
            return None;
        }
        let child = heavier(work, left, left + 1);
        (weight(work, var) < weight_at(work, child)).then_some(Node { index: child })
    }
}

// The heavier of two places, if the second is in the heap.
fn heavier(work: &[u64], left: u64, right: u64) -> u64
    ensures { result ≡ heavier work.now left right }
{
    if right < heap_len(work) && weight_at(work, left) < weight_at(work, right) {
        right
    } else {
        left
    }
}

#[tactic(auto, using(crate::proofs::Heaps::sifting))]
fn sift<W: Way>(work: &mut [u64], place: Node, var: u64)
    ensures { work.new ≡ sift W.next 14 work.old place var }
{
    let mut hole = place;
    for _ in 0..ROWS {
        let Some(next) = W::next(work, hole, var) else {
            break;
        };
        let moved = heap_at(work, next.index);
        put_node(work, hole, moved);
        hole = next;
    }
    put_node(work, hole, var);
}

// The variable comes into the heap, if it isn't there.
#[tactic(auto, unfolding(crate::specs::Vsids::heap_insert))]
pub(crate) fn heap_insert(work: &mut [u64], var: u64)
    ensures { work.new ≡ heap_insert work.old var }
{
    let len = heap_len(work);
    if place_of(work, var).is_some() || len >= MOST_VARS {
        return;
    }
    Scalar::HeapLen.write(work, len + 1);
    sift::<Up>(work, Node { index: len }, var);
}

// The heaviest leaves the heap.
#[tactic(auto, unfolding(crate::specs::Vsids::heap_pop))]
pub(crate) fn heap_pop(work: &mut [u64])
    ensures { work.new ≡ heap_pop work.old }
{
    let len = heap_len(work);
    let first = heap_at(work, 0);
    let last = heap_at(work, len.saturating_sub(1));
    HEAP_POS.write(work, first, 0);
    Scalar::HeapLen.write(work, len.saturating_sub(1));
    if len >= 2 {
        sift::<Down>(work, Node { index: 0 }, last);
    }
}

fn increment(work: &[u64]) -> u64
    ensures { result ≡ increment work.now }
{
    Scalar::Increment.read(work).min(MOST_WEIGHT)
}

// All weights are made smaller.
fn rescale(work: &mut [u64])
    ensures { work.new ≡ all_rescaled work.old }
{
    let increment = increment(work) / SCALE;
    Scalar::Increment.write(work, increment);
    rescale_all(work);
}

#[tactic(auto, using(crate::proofs::Loops::looping))]
fn rescale_all(work: &mut [u64])
    ensures { work.new ≡ rescaled work.old }
{
    for var in 0..MOST_VARS {
        let smaller = weight(work, var) / SCALE;
        ACTIVITY.write(work, var, smaller);
    }
}

fn raise(work: &mut [u64], var: u64)
    ensures { work.new ≡ raised work.old var }
{
    let weight = weight(work, var).min(MOST_WEIGHT) + increment(work);
    ACTIVITY.write(work, var, weight);
}

fn keep_small(work: &mut [u64], var: u64)
    ensures { work.new ≡ kept_small work.old var }
{
    if LARGE < weight(work, var) {
        rescale(work);
    }
}

fn move_up(work: &mut [u64], var: u64)
    ensures { work.new ≡ moved_up work.old var }
{
    if let Some(place) = place_of(work, var) {
        sift::<Up>(work, place, var);
    }
}

// The variable had a part in a conflict.
#[tactic(auto, unfolding(crate::specs::Vsids::bump))]
pub(crate) fn bump(work: &mut [u64], var: u64)
    ensures { work.new ≡ bump work.old var }
{
    raise(work, var);
    keep_small(work, var);
    move_up(work, var);
}

// What comes later weighs more.
pub(crate) fn grow_increment(work: &mut [u64])
    ensures { work.new ≡ grown work.old }
{
    let increment = increment(work);
    Scalar::Increment.write(work, increment + increment / 20);
}

fn set_first_increment(work: &mut [u64])
    ensures { work.new ≡ first_increment work.old }
{
    if increment(work) == 0 {
        Scalar::Increment.write(work, FIRST_INCREMENT);
    }
}

#[tactic(auto, using(crate::proofs::Loops::looping))]
fn insert_all(work: &mut [u64], num_vars: u64)
    ensures { work.new ≡ all_inserted num_vars work.old }
{
    for var in 0..num_vars {
        heap_insert(work, var);
    }
}

// The search knows of so many variables.
pub fn add_vars(work: &mut [u64], num_vars: u64)
    ensures { work.new ≡ with_vars num_vars work.old }
{
    set_first_increment(work);
    insert_all(work, num_vars);
}
