// The theorems about clauses and proofs, each the contract of a function of its own,
// so that the gate asks for its proof. The functions do nothing else.
ghost use Rattle.formula.specs.Examples.{Examples};
ghost use Rattle.formula.specs.Statements.{PropagationSound, ProofSound, ProofThere, OneOrOther, OrderFree, Tautology, Resolves};

// A clause that follows by propagation is true wherever the clauses are.
pub fn propagation_sound()
    ensures { PropagationSound }
{}

// Clauses with a proof that holds and has the empty clause can't all be true.
pub fn proof_sound()
    ensures { ProofSound }
{}

// Clauses that can't all be true have such a proof.
pub fn proof_there()
    ensures { ProofThere }
{}

// Clauses can all be true or they can't.
pub fn one_or_other()
    ensures { OneOrOther }
{}

// The order of clauses and literals, and one that stands twice, change nothing.
pub fn order_free()
    ensures { OrderFree }
{}

// A clause with a literal beside its opposite may be left out.
pub fn tautology()
    ensures { Tautology }
{}

// A resolvent follows by propagation.
pub fn resolves()
    ensures { Resolves }
{}

// Small formulas that can or can't be true, with the model or the proof that shows it.
pub fn examples_hold()
    ensures { Examples }
{}
