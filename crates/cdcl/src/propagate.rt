// Propagation by two watched literals: what is false by the trail is looked for in the lists of its literals.
// Each function promises just what its definition says, on any table.
ghost use Rattle.std.specs.Prelude.{◌≡◌};
ghost use Rattle.cdcl.specs.Work.{Gives};
ghost use Rattle.cdcl.specs.Watch.{moved, free_place, clash, visit, walk, look, propagated};

use crate::assignment::*;
use crate::watch::*;
use crate::work::*;
use formula::literal::opposite;

// The number of a clause that is false.
#[derive(Clone, Copy)]
pub struct Conflict {
    pub(crate) clause: u64,
}

// The slot watches the literal at another place of its clause from now on, and is the first of its list.
fn move_slot(work: &mut [u64], link: u64, slot: Slot, place: u64)
    ensures { work.new ≡ moved work.old link slot place }
{
    let spot = slot.place(work);
    let watched = slot.literal(work);
    let lit = literal_at(work, place);
    let next = slot_at(work, slot.link());
    let first = slot_at(work, lit);
    set_slot(work, link, next);
    LITS.write(work, spot, lit);
    LITS.write(work, place, watched);
    put_in_front(work, lit, slot, first);
}

// A place of the slot's clause, past the two watched ones, whose literal isn't false.
fn free_place(work: &[u64], slot: Slot) -> Option<u64>
    ensures { result ≡ free_place work.now slot }
{
    let places = slot.places(work);
    (places.start + 2..places.end).find(|&place| !is_false(work, literal_at(work, place)))
}

// The slot's clause is false; what is no clause stops no walk.
fn clash(slot: Slot) -> Result<u64, Conflict>
    ensures { result ≡ clash slot }
{
    match slot.clause() {
        Some(clause) => Err(Conflict { clause }),
        None => Ok(slot.link()),
    }
}

// A look at one slot, to which a link leads: its clause stays, is false, makes its other watched literal true, or watches another.
// The walk goes on at the link that comes back.
#[tactic(auto, unfolding(crate::specs::Watch::visit))]
fn visit(work: &mut [u64], link: u64, slot: Slot) -> Result<u64, Conflict>
    ensures { Gives (visit work.old link slot) work.new result }
{
    let other = slot.mate(work);
    if is_true(work, other) {
        return Ok(slot.link());
    }
    if let Some(place) = free_place(work, slot) {
        move_slot(work, link, slot, place);
        return Ok(link);
    }
    if !is_false(work, slot.literal(work)) {
        return Ok(slot.link());
    }
    if is_false(work, other) {
        return clash(slot);
    }
    enqueue(work, other, slot.clause());
    Ok(slot.link())
}

// The slots of a literal's list, one after another, until a clause is false.
#[tactic(auto, using(crate::proofs::Walks::walking))]
fn walk(work: &mut [u64], lit: u64) -> Result<(), Conflict>
    ensures { Gives (walk 40960 work.old lit) work.new result }
{
    let mut link = lit;
    for _ in 0..SLOTS {
        let Some(slot) = slot_at(work, link) else {
            return Ok(());
        };
        link = visit(work, link, slot)?;
    }
    Ok(())
}

// The list of the literal that is false by the next literal of the trail.
#[tactic(auto, unfolding(crate::specs::Watch::look))]
fn look(work: &mut [u64]) -> Result<(), Conflict>
    ensures { Gives (look work.old) work.new result }
{
    let lit = trail_lit(work, queue(work));
    walk(work, opposite(lit))?;
    let next = queue(work) + 1;
    set_queue(work, next);
    Ok(())
}

// All of the trail, until nothing is left to look at or a clause is false.
#[tactic(auto, using(crate::proofs::Walks::propagating))]
pub(crate) fn propagate(work: &mut [u64]) -> Result<(), Conflict>
    ensures { Gives (propagated 16384 work.old) work.new result }
{
    for _ in 0..MOST_VARS {
        if queue(work) >= trail_size(work) {
            break;
        }
        look(work)?;
    }
    Ok(())
}
