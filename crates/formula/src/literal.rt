// A literal as a number: twice its variable, and one more if it is negated.
// Each function is a shift or a mask: `literal` promises its number, the others the part that the definitions name.
ghost use Rattle.std.specs.Prelude.{◌≡◌, ◌+◌, ◌*◌, ◌%◌, ◌^◌, ◌<◌, ◌==◌};
ghost use Rattle.formula.specs.Logic.{other, pick, var_of};

// The literal of a variable and a sign. A variable of 2^63 or more loses its highest bit.
#[tactic(auto, using(crate::proofs::Literals::with_last))]
pub fn literal(variable: u64, negated: bool) -> u64
    ensures whole { result ≡ (2 * variable + pick negated 1 0) % 2 ^ 64 }
    ensures small { variable < 2 ^ 63 → result ≡ 2 * variable + pick negated 1 0 }
{
    variable << 1 | u64::from(negated)
}

pub fn variable(lit: u64) -> u64
    ensures { result ≡ var_of lit }
{
    lit >> 1
}

pub fn is_negated(lit: u64) -> bool
    ensures { result ≡ (lit % 2 == 1) }
{
    lit & 1 == 1
}

// The literal of the same variable with the other sign.
pub fn opposite(lit: u64) -> u64
    ensures { result ≡ other lit }
{
    lit ^ 1
}
