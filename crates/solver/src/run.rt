// A command driven to its end, with a budget of steps, and a sink for what it shows and writes.
// `run` promises that memory, sink and end are those of the machine's run.
ghost use Rattle.std.specs.Prelude.{◌≡◌, ℕ, T, List, [], ◌∷◌, ◌++◌};
ghost use Rattle.solver.specs.Running.{Handed, RunSays, run_fits};

use crate::kind::Kind;
use crate::refusal::Refusal;
use crate::{Buffer, MEMORY_LEN, MIN_OUT, Told, are_short, step};

// How a run ended.
#[derive(Clone, Copy)]
pub enum End {
    Finished,
    // The number of the refusal; 0 for what isn't a command of this machine.
    Refused(u64),
    // The budget was used up; told to go on, it does.
    Unfinished,
    // The sink failed.
    Lost,
}

// A sink for what a command shows and writes. `told a ss ws b` says that the sink a has become b by being told the numbers ss
// and the bytes ws. A method answers false if the sink failed.
pub trait Output {
    ghost told: { Self → List ℕ → List ℕ → Self → Type 0 };

    fn show(&mut self, n: u64) -> bool
        ensures { T result → told self.old (n ∷ []) [] self.new };

    fn write(&mut self, bytes: &[u8]) -> bool
        ensures { T result → told self.old [] bytes.now self.new };

    // The laws: who is told nothing has not changed, and what is told comes one after another.
    ghost nothing: { (a : Self) → told a [] [] a };

    ghost after: { (a b c : Self) (ss ts ws vs : List ℕ) → told a ss ws b → told b ts vs c → told a (ss ++ ts) (ws ++ vs) c };
}

// What a step told, handed on to the sink; and how the run ends, if it does.
fn hand_on<O: Output>(told: Told, buffer: &[u8], out: &mut O) -> Option<End>
    ensures { Handed (λ ss ws. O.Output.told out.old ss ws out.new) told buffer.now result }
{
    let kept = match told {
        Told::Shows(n) => out.show(n),
        Told::Writes(n) => {
            let len = (n as usize).min(buffer.len());
            out.write(&buffer[..len])
        }
        Told::Done => return Some(End::Finished),
        Told::No(k) => return Some(End::Refused(k)),
    };
    (!kept).then_some(End::Lost)
}

// Whether a command can be driven in this memory, with a buffer that has room.
#[tactic(auto, using(crate::proofs::Drives::run_fits_is, crate::proofs::KindNumbers::kind_known))]
fn fits(memory: &[u64], kind: u64, row: &[u64], bytes: &[u8]) -> bool
    ensures { result ≡ run_fits memory.now kind row.now bytes.now }
{
    memory.len() == MEMORY_LEN && Kind::try_from(kind).is_ok() && are_short(row, bytes)
}

pub fn run<O: Output>(
    memory: &mut [u64],
    kind: u64,
    row: &[u64],
    bytes: &[u8],
    budget: u64,
    out: &mut O,
) -> End
    ensures { RunSays (λ ss ws. O.Output.told out.old ss ws out.new) memory.old kind row.now bytes.now budget (run_fits memory.old kind row.now bytes.now) result memory.new }
{
    let mut buffer: Buffer = [0; MIN_OUT];
    if !fits(memory, kind, row, bytes) {
        return End::Refused(Refusal::NoStep.into());
    }
    let mut next = kind;
    for _ in 0..budget {
        let told = step(memory, next, row, bytes, &mut buffer);
        if let Some(end) = hand_on(told, &buffer, out) {
            return end;
        }
        next = u64::from(Kind::GoOn);
    }
    End::Unfinished
}
