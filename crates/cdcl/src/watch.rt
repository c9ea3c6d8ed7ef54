// Clauses by number and their watch lists: of each clause the first two literals are watched, in linked lists by literal.
// Each function promises just what its definition says, on any table.
ghost use Rattle.std.specs.Prelude.{◌≡◌, ℕ, ◌+◌, ◌*◌, ◌/◌, ◌<◌};
ghost use Rattle.cdcl.specs.Work.{cell, numbered, lits};
ghost use Rattle.cdcl.specs.Watch.{start_of, len_of, lit_spot, watch_of, mate, clause_of, spot, slot_numbered, slot_at, with_slot, in_front};

use crate::work::*;
use std::marker::Model;
use std::ops::Range;

// One of the two watched literals of a clause: twice the clause's number, and one more for the second.
#[derive(Clone, Copy)]
pub(crate) struct Slot {
    number: u64,
}

impl Model for Slot {
    ghost Value = { ℕ };

    ghost view = { λ s. s.number };

    ghost invariant = { λ s. s.number < 40960 };

    ghost inverse = { λ n. record { number = n } };
}

impl Slot {
    // A link that leads nowhere holds 0, or another number that is no slot's.
    fn new(number: u64) -> Option<Slot>
        ensures { result ≡ slot_numbered number }
    {
        if 0 < number && number < SLOTS {
            Some(Slot { number })
        } else {
            None
        }
    }

    pub(crate) fn of(clause: u64, place: u64) -> Slot
        requires clause { clause < 20480 }
        requires place { place < 2 }
        ensures { result ≡ 2 * clause + place }
    {
        Slot {
            number: 2 * clause + place,
        }
    }

    pub(crate) fn clause(self) -> Option<u64>
        ensures { result ≡ clause_of self }
    {
        numbered(self.number / 2)
    }

    pub(crate) fn places(self, work: &[u64]) -> Range<u64>
        ensures start { result.start ≡ start_of work.now (self / 2) }
        ensures end { result.end ≡ start_of work.now (self / 2) + len_of work.now (self / 2) }
    {
        places(work, self.number / 2)
    }

    // The link that leads on from the slot.
    pub(crate) fn link(self) -> u64
        ensures { result ≡ spot self }
    {
        SLOT_LINKS + self.number
    }

    // The place of the literal that is watched.
    pub(crate) fn place(self, work: &[u64]) -> u64
        ensures { result ≡ lit_spot work.now self }
    {
        start_of(work, self.number / 2) + self.number % 2
    }

    // The literal that is watched.
    pub(crate) fn literal(self, work: &[u64]) -> u64
        ensures { result ≡ watch_of work.now self }
    {
        literal_at(work, self.place(work))
    }

    // The literal that the clause watches beside it.
    pub(crate) fn mate(self, work: &[u64]) -> u64
        ensures { result ≡ mate work.now self }
    {
        literal_at(
            work,
            start_of(work, self.number / 2) + (1 - self.number % 2),
        )
    }
}

// A clause by its number; 0 is no clause's.
pub(crate) fn numbered(number: u64) -> Option<u64>
    ensures { result ≡ numbered number }
{
    (number != 0).then_some(number)
}

// Where the literals of a clause start.
pub(crate) fn start_of(work: &[u64], clause: u64) -> u64
    ensures { result ≡ start_of work.now clause }
{
    STARTS.read(work, clause).min(MOST_LITS)
}

fn clause_len(work: &[u64], clause: u64) -> u64
    ensures { result ≡ len_of work.now clause }
{
    if clause >= CLAUSE_NUMBERS {
        return 0;
    }
    start_of(work, clause + 1).saturating_sub(start_of(work, clause))
}

// The places of a clause's literals.
pub(crate) fn places(work: &[u64], clause: u64) -> Range<u64>
    ensures start { result.start ≡ start_of work.now clause }
    ensures end { result.end ≡ start_of work.now clause + len_of work.now clause }
{
    let start = start_of(work, clause);
    start..start + clause_len(work, clause)
}

pub(crate) fn literal_at(work: &[u64], place: u64) -> u64
    ensures { result ≡ cell lits work.now place }
{
    LITS.read(work, place)
}

// The slot that a link leads to.
pub(crate) fn slot_at(work: &[u64], link: u64) -> Option<Slot>
    ensures { result ≡ slot_at work.now link }
{
    Slot::new(LINKS.read(work, link))
}

pub(crate) fn set_slot(work: &mut [u64], link: u64, slot: Option<Slot>)
    ensures { work.new ≡ with_slot work.old link slot }
{
    let number = slot.map_or(0, |slot| slot.number);
    LINKS.write(work, link, number);
}

// The slot comes to the front of a literal's list, before the slot that was first.
pub(crate) fn put_in_front(work: &mut [u64], lit: u64, slot: Slot, first: Option<Slot>)
    ensures { work.new ≡ in_front work.old lit slot first }
{
    set_slot(work, slot.link(), first);
    set_slot(work, lit, Some(slot));
}
