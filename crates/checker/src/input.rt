// A formula and the steps of a proof, as they were read. `row` promises the literals of each clause, counted through
// from those of the formula to those of the steps; the check has numbers of its own.
ghost use Rattle.std.specs.Prelude.{◌≡◌, [], slice_index_or};
ghost use Rattle.checker.specs.Input.{rows_of};

#[derive(Clone, Copy, PartialEq, Eq)]
pub enum Action {
    Add,
    Delete,
}

// A clause that is added or deleted, and the line where the step begins. In a formula all are added.
#[derive(Drop)]
pub struct ProofStep {
    pub line: u64,
    pub action: Action,
    pub clause: Vec<u64>,
}

#[derive(Drop)]
pub struct Input {
    pub formula: Vec<ProofStep>,
    pub steps: Vec<ProofStep>,
}

impl Input {
    // The literals of a clause; none past the last.
    pub fn row(&self, id: usize) -> &[u64]
        ensures { result.now ≡ slice_index_or (rows_of self.now) id [] }
    {
        let step = match id.checked_sub(self.formula.len()) {
            Some(place) => self.steps.get(place),
            None => self.formula.get(id),
        };
        step.map_or(&[], |step| step.clause.as_slice())
    }
}
