// varisat_check FORMULA PROOF: says whether a proof shows that a formula can't be true.
// "s VERIFIED" rests on what `checker::verify` promises of `Verified`; here files are read and lines are printed.
#![tactic(auto)]

use anyhow::{Result, anyhow, bail};
use checker::check::Verdict;
use checker::reader::{Problem, Source};
use checker::verify::verify;
use std::io::Read;
use std::process::ExitCode;
use std::{env, fs};

const HELP: &str = "usage: varisat_check FORMULA PROOF

Checks that each step of PROOF (DRAT text, additions by unit propagation and deletions) follows from
FORMULA (DIMACS CNF), and that the empty clause is among the steps. PROOF may be - for standard input.
Prints \"s VERIFIED\" and ends with status 0, or \"s NOT VERIFIED\" and ends with status 1.";

// The names of the two files.
#[derive(Clone, Copy)]
struct Files<'a> {
    formula: &'a str,
    proof: &'a str,
}

impl<'a> Files<'a> {
    fn name(&self, source: Source) -> &'a str {
        match source {
            Source::Formula => self.formula,
            Source::Proof => self.proof,
        }
    }

    // What is wrong with a text, with its file, line and byte.
    fn error(&self, problem: Problem) -> anyhow::Error {
        match problem {
            Problem::BadByte { source, line, byte } => {
                let name = self.name(source);
                anyhow!("{name}: line {line}: byte {byte} can't stand there")
            }
            Problem::Unended { source, line } => {
                let name = self.name(source);
                anyhow!("{name}: line {line}: the text ends within a clause")
            }
            Problem::OutOfMemory => anyhow!("out of memory"),
        }
    }
}

fn read_text(rt: &HostRuntime, name: &str) -> Result<Vec<u8>> {
    if name == "-" {
        let mut text = Vec::new(rt.alloc());
        let _ = rt.stdin().read_to_end(&mut text)?;
        return Ok(text);
    }
    fs::read(rt, name).map_err(|e| anyhow!("{name}: {e}"))
}

fn say(rt: &HostRuntime, verdict: Verdict) -> Result<()> {
    let reason = match verdict {
        Verdict::Verified => {
            println!(rt; "s VERIFIED")?;
            return Ok(());
        }
        Verdict::Fails(line) => anyhow!("the step in line {line} does not follow"),
        Verdict::NoEmptyClause => anyhow!("the empty clause is missing"),
    };
    println!(rt; "s NOT VERIFIED")?;
    println!(rt; "c {reason}")?;
    Err(reason)
}

fn check(rt: &HostRuntime, files: Files) -> Result<()> {
    let formula = read_text(rt, files.formula)?;
    let proof = read_text(rt, files.proof)?;
    let verdict = verify(rt.alloc(), &formula, &proof).map_err(|problem| files.error(problem))?;
    say(rt, verdict)
}

fn run(rt: &HostRuntime) -> Result<()> {
    let args: Vec<String> = env::args(rt)?.skip(1).collect(rt.alloc())?;
    match args.as_slice() {
        [] => bail!("FORMULA and PROOF are missing; --help says more"),
        [first, ..] if first.as_str() == "--help" => {
            println!(rt; "{HELP}")?;
            Ok(())
        }
        [_] => bail!("PROOF is missing; --help says more"),
        [formula, proof] => {
            let files = Files {
                formula: formula.as_str(),
                proof: proof.as_str(),
            };
            check(rt, files)
        }
        _ => bail!("there are more than two arguments; --help says more"),
    }
}

fn main(rt: HostRuntime) -> ExitCode {
    match run(&rt) {
        Ok(()) => ExitCode::SUCCESS,
        Err(e) => {
            let _ = eprintln!(rt; "varisat_check: {e}");
            ExitCode::FAILURE
        }
    }
}
