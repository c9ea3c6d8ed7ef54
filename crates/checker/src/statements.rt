// A theorem about the reading of proofs, the contract of a function of its own, so that the gate asks for its proof.
// The function does nothing else.
ghost use Rattle.checker.specs.ReadBack.{ReadBack};

// A proof that is written is read as what it was.
pub fn proof_read_back()
    ensures { ReadBack }
{}
