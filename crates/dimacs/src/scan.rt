// One byte after another of a formula's text: what is known of the text so far, and each literal and clause written into
// rows of numbers when it is done. `Scan::read_byte` promises what its definition says, at any byte.
ghost use Rattle.std.specs.Prelude.{◌≡◌, ◌+◌, ◌^◌, ◌<◌, ◌≤◌, drop, length};

use crate::header::{MOST_VARS, Promise, SPACE, read_header};
use crate::read::{Counts, Fault};
use formula::literal::literal;
use formula::table::put;

const NEWLINE: u8 = b'\n';

const RETURN: u8 = b'\r';

const MINUS: u8 = b'-';

const COMMENT: u8 = b'c';

const HEADER: u8 = b'p';

// What the bytes of a line so far make of the next one. A header begins at a place of the file.
#[derive(Clone, Copy)]
pub enum State {
    LineStart,
    Between,
    Minus,
    Number { negated: bool, value: u16 },
    Comment,
    Header { start: usize },
}

// The clauses that are done with the literals in them, and the variables of all; the literals of the clause that isn't done.
#[derive(Clone, Copy)]
pub struct Tally {
    pub counts: Counts,
    pub part: u64,
}

// What is kept of the text so far, and what its header said.
#[derive(Clone, Copy)]
pub struct Scan {
    pub line: u64,
    pub state: State,
    pub tally: Tally,
    pub header: Option<Promise>,
}

impl Scan {
    ghost use Rattle.dimacs.specs.Scanning.{Bounded, HasRoom, first_scan, line_counted, in_state, tally_done, rows_done, digit_taken, number_ended, header_ended, byte_taken, rows_taken};

    // Before the first byte.
    pub fn new() -> Self
        ensures { result ≡ first_scan }
    {
        Scan {
            line: 1,
            state: State::LineStart,
            tally: Tally {
                counts: Counts {
                    clauses: 0,
                    literals: 0,
                    vars: 0,
                },
                part: 0,
            },
            header: None,
        }
    }

    fn count_line(self, b: u8) -> Self
        requires { self.line ≤ 2 ^ 63 }
        ensures { result ≡ line_counted b self }
    {
        let line = if b == NEWLINE {
            self.line + 1
        } else {
            self.line
        };
        Scan { line, ..self }
    }

    fn with_state(self, state: State) -> Self
        ensures { result ≡ in_state self state }
    {
        Scan { state, ..self }
    }

    // The number that is read, if there is one, is done: 0 ends the clause, whose length goes before its literals.
    pub fn finish_number(self, rows: &mut [u64]) -> Tally
        requires { HasRoom self.tally }
        ensures tally { result ≡ tally_done self.state self.tally }
        ensures rows { rows.new ≡ rows_done rows.old self.state self.tally }
    {
        let State::Number { negated, value } = self.state else {
            return self.tally;
        };
        let Tally { counts, part } = self.tally;
        let row = counts.clauses + counts.literals;
        if value == 0 {
            put(rows, row, part);
            let counts = Counts {
                clauses: counts.clauses + 1,
                literals: counts.literals + part,
                ..counts
            };
            return Tally { counts, part: 0 };
        }
        let number = u64::from(value);
        put(rows, row + 1 + part, literal(number - 1, negated));
        let vars = counts.vars.max(number);
        Tally {
            counts: Counts { vars, ..counts },
            part: part + 1,
        }
    }

    fn end_number(self, b: u8, rows: &mut [u64]) -> Self
        requires { HasRoom self.tally }
        ensures scan { result ≡ number_ended b self }
        ensures rows { rows.new ≡ rows_done rows.old self.state self.tally }
    {
        let tally = self.finish_number(rows);
        let state = if b == SPACE {
            State::Between
        } else {
            State::LineStart
        };
        Scan {
            state,
            tally,
            ..self
        }
    }

    fn read_digit(self, digit: u8) -> Result<Self, Fault>
        requires { digit < 10 }
        ensures { result ≡ digit_taken digit self }
    {
        let (negated, digits) = match self.state {
            State::Number { negated, value } => (negated, value),
            State::Minus => (true, 0),
            _ => (false, 0),
        };
        let value = u64::from(digits) * 10 + u64::from(digit);
        if value > MOST_VARS {
            return Err(Fault::TooLarge { line: self.line });
        }
        Ok(self.with_state(State::Number {
            negated,
            value: value as u16,
        }))
    }

    fn end_header(self, row: &[u8]) -> Result<Self, Fault>
        ensures { result ≡ header_ended row.now self }
    {
        let promise = read_header(row, self.line)?;
        Ok(Scan {
            state: State::LineStart,
            header: Some(promise),
            ..self
        })
    }

    // The byte behind those that are read.
    pub fn read_byte(self, before: &[u8], b: u8, rows: &mut [u64]) -> Result<Self, Fault>
        requires { Bounded (length before.now) self }
        ensures scan { result ≡ byte_taken before.now b (line_counted b self) }
        ensures rows { rows.new ≡ rows_taken rows.old b self }
    {
        let scan = self.count_line(b);
        let bad = Fault::BadByte {
            line: scan.line,
            byte: b,
        };
        let header = State::Header {
            start: before.len(),
        };
        match (scan.state, b) {
            (State::Header { start }, NEWLINE | RETURN) => scan.end_header(&before[start..]),
            (State::Comment, NEWLINE | RETURN) => Ok(scan.with_state(State::LineStart)),
            (State::Header { .. } | State::Comment, _) => Ok(scan),
            (_, b'0'..=b'9') => scan.read_digit(b - b'0'),
            (State::Minus, _) => Err(bad),
            (_, SPACE | NEWLINE | RETURN) => Ok(scan.end_number(b, rows)),
            (State::LineStart | State::Between, MINUS) => Ok(scan.with_state(State::Minus)),
            (State::LineStart, COMMENT) => Ok(scan.with_state(State::Comment)),
            (State::LineStart, HEADER) if scan.header.is_none() => Ok(scan.with_state(header)),
            _ => Err(bad),
        }
    }
}
