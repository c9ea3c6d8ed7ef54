// The map of `work`, the search's own table: where each of its tables lies, and how one number of one is read and written.
// Nothing is refused: past a table's end a read gives 0 and a write does nothing, whatever lies behind.
ghost use Rattle.std.specs.Prelude.{◌+◌, ◌≤◌};

use formula::table;

// So many variables, clauses' numbers and literals there can be, and literals of a clause that is learned.
pub(crate) const MOST_VARS: u64 = 16384;

pub(crate) const CLAUSE_NUMBERS: u64 = 20480;

pub(crate) const MOST_LITS: u64 = 106752;

pub(crate) const MOST_LEARNED: u64 = 16640;

// So many watched literals, two of each clause; their links lie behind those of literals.
pub(crate) const SLOTS: u64 = 2 * CLAUSE_NUMBERS;

pub(crate) const SLOT_LINKS: u64 = 2 * MOST_VARS;

// Where a table lies, and how long it is: within the lent numbers.
#[derive(Clone, Copy)]
pub struct Table {
    start: u64,
    len: u64,
    ghost within: { start + len ≤ 423680 },
}

impl Table {
    ghost use Rattle.std.specs.Prelude.{◌≡◌};
    ghost use Rattle.cdcl.specs.Work.{cell, put};

    pub(crate) fn read(self, work: &[u64], i: u64) -> u64
        ensures { result ≡ cell self work.now i }
    {
        if i < self.len {
            table::get(work, self.start + i)
        } else {
            0
        }
    }

    pub(crate) fn write(self, work: &mut [u64], i: u64, value: u64)
        ensures { work.new ≡ put self work.old i value }
    {
        if i < self.len {
            table::put(work, self.start + i, value);
        }
    }
}

pub(crate) const SCALARS: Table = Table { start: 0, len: 256 };

pub(crate) const VALUES: Table = Table {
    start: 256,
    len: MOST_VARS,
};

pub(crate) const LEVELS: Table = Table {
    start: 16640,
    len: MOST_VARS,
};

pub(crate) const REASONS: Table = Table {
    start: 33024,
    len: MOST_VARS,
};

pub(crate) const TRAIL: Table = Table {
    start: 49408,
    len: MOST_VARS,
};

pub(crate) const ACTIVITY: Table = Table {
    start: 65792,
    len: MOST_VARS,
};

pub(crate) const HEAP: Table = Table {
    start: 82176,
    len: MOST_VARS,
};

pub(crate) const HEAP_POS: Table = Table {
    start: 98560,
    len: MOST_VARS,
};

pub(crate) const PHASES: Table = Table {
    start: 114944,
    len: MOST_VARS,
};

pub(crate) const MARKS: Table = Table {
    start: 131328,
    len: MOST_VARS,
};

pub(crate) const LEARNED_LITS: Table = Table {
    start: 165120,
    len: MOST_LEARNED,
};

pub(crate) const LINKS: Table = Table {
    start: 181760,
    len: SLOT_LINKS + SLOTS,
};

pub(crate) const STARTS: Table = Table {
    start: 255488,
    len: CLAUSE_NUMBERS,
};

pub(crate) const LITS: Table = Table {
    start: 316928,
    len: MOST_LITS,
};
