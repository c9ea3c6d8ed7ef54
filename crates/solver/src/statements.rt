// What a model and a core show of the formula, each the contract of a function of its own,
// so that the gate asks for its proof. The functions do nothing else.
ghost use Rattle.solver.specs.Promise.{ModelShows, CoreShows};

// A model shows that clauses and assumptions can all be true.
pub fn model_shows()
    ensures { ModelShows }
{}

// A core shows that they can't.
pub fn core_shows()
    ensures { CoreShows }
{}
