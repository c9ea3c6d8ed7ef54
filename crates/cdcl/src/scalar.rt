// The scalars of the search's table by their names.
// `place` promises where each lies in their table, `read` and `write` the number there.
ghost use Rattle.std.specs.Prelude.{◌≡◌};
ghost use Rattle.cdcl.specs.Scalars.{place_of, scalar, with_scalar};

use crate::work::SCALARS;

#[derive(Clone, Copy)]
pub(crate) enum Scalar {
    TrailSize,
    Queue,
    Level,
    Stamp,
    NumClauses,
    HeapLen,
    Increment,
    LearnedLen,
    OpenCount,
}

impl Scalar {
    fn place(self) -> u64
        ensures { result ≡ place_of self }
    {
        match self {
            Scalar::TrailSize => 0,
            Scalar::Queue => 1,
            Scalar::Level => 2,
            Scalar::Stamp => 3,
            Scalar::NumClauses => 4,
            Scalar::HeapLen => 5,
            Scalar::Increment => 6,
            Scalar::LearnedLen => 8,
            Scalar::OpenCount => 9,
        }
    }

    pub(crate) fn read(self, work: &[u64]) -> u64
        ensures { result ≡ scalar work.now self }
    {
        SCALARS.read(work, self.place())
    }

    pub(crate) fn write(self, work: &mut [u64], value: u64)
        ensures { work.new ≡ with_scalar work.old self value }
    {
        SCALARS.write(work, self.place(), value);
    }
}
