// A file read in one pass, byte by byte, its clauses written into a table beside it.
// `read_formula` promises the answer of the reader that the definitions have, and what the table holds whatever comes.
ghost use Rattle.std.specs.Prelude.{◌≡◌, length};
ghost use Rattle.dimacs.specs.Text.{file_read};
ghost use Rattle.dimacs.specs.Scan.{outcome_of, outcome_told, number_told, first_told, second_told, table_after};
ghost use Rattle.dimacs.specs.Scanning.{Bounded, rows_done, scan_checked};

use crate::header::read_header;
use crate::scan::{Scan, State};

// How many clauses, literals and variables a file has.
#[derive(Clone, Copy)]
pub struct Counts {
    pub clauses: u64,
    pub literals: u64,
    pub vars: u64,
}

// What is wrong in a file, with its line, or with what was found against what the header said.
#[derive(Clone, Copy, PartialEq, Eq)]
pub enum Fault {
    BadByte { line: u64, byte: u8 },
    TooLarge { line: u64 },
    BadHeader { line: u64 },
    OpenClause { line: u64 },
    MoreVars { found: u64, said: u64 },
    OtherClauses { found: u64, said: u64 },
}

impl Fault {
    // The number of the refusal.
    pub fn number(self) -> u64
        ensures { result ≡ number_told self }
    {
        match self {
            Fault::BadByte { .. } => 20,
            Fault::TooLarge { .. } => 21,
            Fault::BadHeader { .. } => 22,
            Fault::OpenClause { .. } => 23,
            Fault::MoreVars { .. } => 24,
            Fault::OtherClauses { .. } => 25,
        }
    }

    // The first number that is shown with it.
    pub fn first(self) -> u64
        ensures { result ≡ first_told self }
    {
        match self {
            Fault::BadByte { line, .. }
            | Fault::TooLarge { line }
            | Fault::BadHeader { line }
            | Fault::OpenClause { line } => line,
            Fault::MoreVars { found, .. } | Fault::OtherClauses { found, .. } => found,
        }
    }

    // The second, where there is one.
    pub fn second(self) -> Option<u64>
        ensures { result ≡ second_told self }
    {
        match self {
            Fault::BadByte { byte, .. } => Some(u64::from(byte)),
            Fault::MoreVars { said, .. } | Fault::OtherClauses { said, .. } => Some(said),
            _ => None,
        }
    }
}

// All bytes are read: the last number is done, and the header if its line isn't ended.
fn finish(scan: Scan, bytes: &[u8], rows: &mut [u64]) -> Result<Counts, Fault>
    requires { Bounded (length bytes.now) scan }
    ensures checked { result ≡ scan_checked bytes.now scan }
    ensures rows { rows.new ≡ rows_done rows.old scan.state scan.tally }
{
    let tally = scan.finish_number(rows);
    let header = match scan.state {
        State::Header { start } => Some(read_header(&bytes[start..], scan.line)?),
        _ => scan.header,
    };
    if tally.part != 0 {
        return Err(Fault::OpenClause { line: scan.line });
    }
    if let Some(promise) = header {
        promise.check(tally.counts)?;
    }
    Ok(tally.counts)
}

// Reads a file once. Each literal is written into the table as it is done, from `start` on, each clause's length before it.
pub fn read_formula(bytes: &[u8], table: &mut [u64], start: u64) -> Result<Counts, Fault>
    ensures outcome { outcome_told result ≡ outcome_of (file_read bytes.now) }
    ensures table { table.new ≡ table_after table.old start bytes.now }
{
    let start = (start as usize).min(table.len());
    let rows = &mut table[start..];
    let mut scan = Scan::new();
    for (i, b) in bytes.iter().enumerate() {
        scan = scan.read_byte(&bytes[..i], *b, rows)?;
    }
    finish(scan, bytes, rows)
}
