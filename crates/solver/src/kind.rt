// The commands and going on, as a step is told them: by a kind, or by the number that stands for it.
// The conversions promise that each kind has its own number, and that no other number has a kind.
ghost use Rattle.std.specs.Prelude.{◌≡◌};
ghost use Rattle.solver.specs.Kind.{number_of, HasKind};

#[derive(Clone, Copy, PartialEq, Eq)]
pub enum Kind {
    NewVar,
    Add,
    Assume,
    Solve,
    Model,
    Core,
    Read,
    Print,
    Prove,
    GoOn,
}

// A number that stands for no kind.
#[derive(Clone, Copy, PartialEq, Eq)]
pub struct UnknownKind(pub u64);

impl From<Kind> for u64 {
    ghost from_gives = { λ kind n. n ≡ number_of kind };

    fn from(kind: Kind) -> u64 {
        match kind {
            Kind::NewVar => 0,
            Kind::Add => 1,
            Kind::Assume => 2,
            Kind::Solve => 3,
            Kind::Model => 4,
            Kind::Core => 5,
            Kind::Read => 6,
            Kind::Print => 7,
            Kind::Prove => 8,
            Kind::GoOn => 9,
        }
    }
}

impl TryFrom<u64> for Kind {
    type Error = UnknownKind;

    ghost try_from_gives = { HasKind };

    fn try_from(number: u64) -> Result<Kind, UnknownKind> {
        match number {
            0 => Ok(Kind::NewVar),
            1 => Ok(Kind::Add),
            2 => Ok(Kind::Assume),
            3 => Ok(Kind::Solve),
            4 => Ok(Kind::Model),
            5 => Ok(Kind::Core),
            6 => Ok(Kind::Read),
            7 => Ok(Kind::Print),
            8 => Ok(Kind::Prove),
            9 => Ok(Kind::GoOn),
            _ => Err(UnknownKind(number)),
        }
    }
}
