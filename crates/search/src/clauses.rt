// The clauses of an arena, one after another.
// Promised is that they are the clauses that the definitions name, on any table.
ghost use Rattle.std.specs.Prelude.{◌≡◌, drop, take, slice_index};
ghost use Rattle.std.specs.Iterator.{YieldsFirstRef, item_count};
ghost use Rattle.formula.specs.Arena.{clauses_in};
ghost use Rattle.search.specs.Clauses.{clauses_left};

// `left` clauses are still to come, from the front of `arena` on.
#[derive(Drop)]
pub(crate) struct Clauses<'a> {
    arena: &'a [u64],
    left: u64,
}

impl<'a> Clauses<'a> {
    pub(crate) fn new(arena: &'a [u64], count: u64) -> Clauses<'a>
        ensures { clauses_left result ≡ clauses_in count arena.now }
    {
        Clauses { arena, left: count }
    }
}

impl<'a> Iterator for Clauses<'a> {
    type Item = &'a [u64];

    ghost next_gives = { YieldsFirstRef clauses_left };

    ghost remaining = { item_count clauses_left };

    fn next(&mut self) -> Option<&'a [u64]> {
        if self.left == 0 {
            return None;
        }
        let (clause, rest) = split_clause(self.arena);
        self.arena = rest;
        self.left -= 1;
        Some(clause)
    }
}

// The first clause, and what is after it. Past the arena's end a clause is empty.
fn split_clause(arena: &[u64]) -> (&[u64], &[u64])
    ensures clause { result.0.now ≡ take (slice_index arena.now 0) (drop 1 arena.now) }
    ensures rest { result.1.now ≡ drop (slice_index arena.now 0) (drop 1 arena.now) }
{
    let Some((len, rest)) = arena.split_first() else {
        return (arena, arena);
    };
    rest.split_at(rest.len().min(*len as usize))
}
