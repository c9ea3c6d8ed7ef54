// A session: a memory of the solver, and the lines of standard input answered one by one on standard output.
// What is promised is the machine's.
use crate::file::{NotTaken, read_file};
use crate::machine::Machine;
use crate::printer::{Printer, Style};
use crate::refusal::{Answer, Refusal};
use crate::request::{Mistake, Request, parse};
use crate::usage;
use solver::collected::Collected;
use solver::kind::Kind;
use solver::run::End;
use std::io;
use std::io::{BufRead, BufReader};
use std::str::from_utf8;

const BUDGET: u64 = u64::MAX;

#[derive(Drop)]
struct Session {
    rt: HostRuntime,
    machine: Machine,
    printer: Printer,
    // The number of the line that is answered, from 1.
    line: u64,
}

impl Session {
    fn new(rt: &HostRuntime) -> io::Result<Session> {
        Ok(Session {
            rt: *rt,
            machine: Machine::new(rt.alloc())?,
            printer: Printer::new(rt.alloc(), rt.stdout())?,
            line: 0,
        })
    }

    // Answers a line, with or without its line break.
    fn take(&mut self, line: &[u8]) -> io::Result<()> {
        self.line = self.line.saturating_add(1);
        match self.read(line) {
            Ok(request) => self.answer(request),
            Err(mistake) => self.complain(mistake),
        }
    }

    fn read(&self, line: &[u8]) -> Result<Request, Mistake> {
        parse(self.rt.alloc(), from_utf8(line)?)
    }

    fn complain(&mut self, mistake: Mistake) -> io::Result<()> {
        let line = self.line;
        self.printer.line(format_args!("? line {line}: {mistake}"))
    }

    fn answer(&mut self, request: Request) -> io::Result<()> {
        match request {
            Request::New => self.run(Kind::NewVar, &[], Style::Variable),
            Request::Add(row) => self.run(Kind::Add, row.as_slice(), Style::Done),
            Request::Assume(row) => self.run(Kind::Assume, row.as_slice(), Style::Done),
            Request::Solve => self.run(Kind::Solve, &[], Style::Number),
            Request::Model => self.run(Kind::Model, &[], Style::Literals),
            Request::Core => self.run(Kind::Core, &[], Style::Literals),
            Request::Read(file) => self.run_read(file),
            Request::Print => self.run(Kind::Print, &[], Style::Text),
            // The file is for when the machine knows of proofs.
            Request::Prove(_) => self.run(Kind::Prove, &[], Style::Done),
            Request::Help => self.printer.line(usage::COMMANDS),
            Request::Nothing => Ok(()),
        }
    }

    // A command whose refusal shows nothing, so what it tells can be printed as it comes.
    fn run(&mut self, kind: Kind, row: &[u64], style: Style) -> io::Result<()> {
        let mut sink = self.printer.sink(style);
        let end = self
            .machine
            .drive(u64::from(kind), row, &[], BUDGET, &mut sink);
        match end {
            End::Finished => sink.end(),
            _ => self.end_early(end, &[]),
        }
    }

    // A file may be refused with numbers, so what is shown waits for the end.
    fn run_read(&mut self, file: String) -> io::Result<()> {
        let bytes = match read_file(&self.rt, file.as_str()) {
            Ok(bytes) => bytes,
            Err(NotTaken::Io(_)) => return self.complain(Mistake::Unreadable(file)),
            Err(NotTaken::TooLong) => return self.complain(Mistake::FileTooLong(file)),
        };
        let mut told = Collected::new(self.rt.alloc());
        let end = self.machine.drive(
            u64::from(Kind::Read),
            &[],
            bytes.as_slice(),
            BUDGET,
            &mut told,
        );
        match (end, told.shown.as_slice()) {
            (End::Finished, [vars, clauses]) => self.printer.line(format_args!("{vars} {clauses}")),
            (_, shown) => self.end_early(end, shown),
        }
    }

    // The answer to a command that wasn't taken to its end.
    fn end_early(&mut self, end: End, shown: &[u64]) -> io::Result<()> {
        match end {
            End::Refused(number) => self.printer.line(Answer(Refusal::of(number, shown))),
            End::Unfinished => self.complain(Mistake::OutOfSteps),
            End::Finished | End::Lost => Err(io::Error::other("the answer couldn't be printed")),
        }
    }
}

// The lines of a source, one at a time, all in one buffer: `split` takes memory anew for each.
#[derive(Drop)]
struct Lines<R> {
    source: R,
    line: Vec<u8>,
}

impl<R: BufRead + Drop> Lines<R> {
    // The next line, with its line break.
    fn next(&mut self) -> io::Result<Option<&[u8]>> {
        self.line.clear();
        let len = self.source.read_until(b'\n', &mut self.line)?;
        Ok((len > 0).then_some(self.line.as_slice()))
    }
}

// Answers the lines of standard input until it ends.
pub fn serve(rt: &HostRuntime) -> io::Result<()> {
    let mut session = Session::new(rt)?;
    let mut lines = Lines {
        source: BufReader::new(rt.alloc(), rt.stdin())?,
        line: Vec::new(rt.alloc()),
    };
    // Nothing says that a source ends, and a loop must, so the lines are counted.
    for _ in 0..u64::MAX {
        let Some(line) = lines.next()? else {
            break;
        };
        session.take(line)?;
    }
    Ok(())
}
