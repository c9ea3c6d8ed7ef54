// The reading of a formula or a proof. `read` promises that the steps that it returns are just those that the
// definition reads from the bytes.
ghost use Rattle.std.specs.Prelude.{◌≡◌, true, map, IfOk, Some, OnOk, is_some};
ghost use Rattle.checker.specs.Input.{step_of};
ghost use Rattle.checker.specs.Reading.{is_fresh, taken, fed, text_read, first_state};
ghost use Rattle.checker.specs.Views.{building_of, state_of};

use crate::input::{Action, ProofStep};
use crate::lexer::{Lexer, Token, next};
use std::alloc::{AllocError, Global};

// What is read.
#[derive(Clone, Copy, PartialEq, Eq)]
pub enum Source {
    Formula,
    Proof,
}

// Why there is no verdict.
#[derive(Clone, Copy, PartialEq, Eq)]
pub enum Problem {
    // A byte can't stand in this line.
    BadByte { source: Source, line: u64, byte: u8 },
    // The text ends within a clause, a number or the header.
    Unended { source: Source, line: u64 },
    OutOfMemory,
}

impl Problem {
    // At the text's end a line's end that can't stand there says that the text is not done.
    fn at_end(self) -> Problem {
        match self {
            Problem::BadByte { source, line, .. } => Problem::Unended { source, line },
            other => other,
        }
    }
}

impl From<AllocError> for Problem {
    fn from(_e: AllocError) -> Problem {
        Problem::OutOfMemory
    }
}

#[derive(Drop)]
pub struct Reader {
    source: Source,
    lexer: Lexer,
    steps: Vec<ProofStep>,
    action: Action,
    part: Vec<u64>,
    line: u64,
    // The line where the step that isn't done begins.
    start: u64,
}

impl Reader {
    fn new(heap: Global, source: Source) -> Reader
        ensures source { result.source ≡ source }
        ensures state { state_of result ≡ first_state }
    {
        Reader {
            source,
            lexer: Lexer::LineStart,
            steps: Vec::new(heap),
            action: Action::Add,
            part: Vec::new(heap),
            line: 1,
            start: 1,
        }
    }

    // Whether no step has begun.
    fn is_fresh(&self) -> bool
        ensures { result ≡ is_fresh (building_of self.now) }
    {
        self.action == Action::Add && self.part.is_empty()
    }

    // As long as no step has begun, the next one is taken to begin in this line.
    fn note_line(&mut self)
        ensures { (self.new.source ≡ self.old.source) × (state_of self.new ≡ state_of self.old) }
    {
        if self.is_fresh() {
            self.start = self.line;
        }
    }

    fn end_step(&mut self) -> Result<(), AllocError>
        ensures source { self.new.source ≡ self.old.source }
        ensures lexer { self.new.lexer ≡ self.old.lexer }
        ensures after { OnOk result (taken self.old.source (building_of self.old) Token.Zero ≡ Some (building_of self.new)) }
    {
        // The copy takes no more room than it needs, and the part's room serves the next step.
        let clause = Vec::from_slice(*self.part.allocator(), &self.part)?;
        self.part.clear();
        self.steps.push(ProofStep {
            line: self.start,
            action: self.action,
            clause,
        })?;
        self.action = Action::Add;
        Ok(())
    }

    // Whether a token can stand here.
    fn allows(&self, token: Token) -> bool
        ensures { result ≡ is_some (taken self.now.source (building_of self.now) token) }
    {
        match token {
            Token::Quiet | Token::Literal(_) | Token::Zero => true,
            Token::LetterD => self.source == Source::Proof && self.is_fresh(),
            Token::LetterP => {
                self.source == Source::Formula && self.is_fresh() && self.steps.is_empty()
            }
        }
    }

    // What a token does that can stand here.
    fn take(&mut self, token: Token) -> Result<(), AllocError>
        ensures source { self.new.source ≡ self.old.source }
        ensures after { OnOk result (is_some (taken self.old.source (building_of self.old) token) ≡ true → taken self.old.source (building_of self.old) token ≡ Some (building_of self.new)) }
    {
        if !matches!(token, Token::Quiet) {
            self.note_line();
        }
        match token {
            Token::Quiet | Token::LetterP => {}
            Token::Literal(lit) => self.part.push(lit)?,
            Token::Zero => self.end_step()?,
            Token::LetterD => self.action = Action::Delete,
        }
        Ok(())
    }

    // The next byte.
    fn feed(&mut self, byte: u8) -> Result<(), Problem>
        ensures source { self.new.source ≡ self.old.source }
        ensures after { OnOk result (fed self.old.source (state_of self.old) byte ≡ Some (state_of self.new)) }
    {
        let refused = Problem::BadByte {
            source: self.source,
            line: self.line,
            byte,
        };
        let Some((lexer, token)) = next(self.lexer, byte) else {
            return Err(refused);
        };
        if !self.allows(token) {
            return Err(refused);
        }
        self.take(token)?;
        self.lexer = lexer;
        if byte == b'\n' {
            self.line = self.line.wrapping_add(1);
        }
        Ok(())
    }
}

// All clauses of a formula or steps of a proof.
pub fn read(heap: Global, source: Source, text: &[u8]) -> Result<Vec<ProofStep>, Problem>
    ensures { IfOk result (λ v. text_read source text.now ≡ Some (map step_of v.items)) }
{
    let mut reader = Reader::new(heap, source);
    for byte in text {
        reader.feed(*byte)?;
    }
    let unended = Problem::Unended {
        source,
        line: reader.line,
    };
    reader.feed(b'\n').map_err(|problem| problem.at_end())?;
    if !reader.is_fresh() {
        return Err(unended);
    }
    Ok(reader.steps)
}
