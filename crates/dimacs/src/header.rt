// The header's line, "p cnf variables clauses": its words between blanks, and the numbers in them.
// `read_header` promises the answer of the definitions, also for a line that is refused.
ghost use Rattle.std.specs.Prelude.{◌≡◌};
ghost use Rattle.dimacs.specs.Text.{is_blank, word_number};
ghost use Rattle.dimacs.specs.Heading.{first_word, after_word, first_of, words_read, heading_read};

use crate::read::{Counts, Fault};

pub const SPACE: u8 = b' ';

const TAB: u8 = 9;

const VERTICAL_TAB: u8 = 11;

const FORM_FEED: u8 = 12;

const FORMAT: &[u8] = b"cnf";

pub const MOST_VARS: u64 = 16384;

// What a header says that there is.
#[derive(Clone, Copy)]
pub struct Promise {
    pub vars: u64,
    pub clauses: u64,
}

impl Promise {
    ghost use Rattle.dimacs.specs.Scanning.{promise_kept};

    // What there is, against what the header says.
    pub fn check(self, counts: Counts) -> Result<(), Fault>
        ensures { result ≡ promise_kept self counts }
    {
        if counts.vars > self.vars {
            return Err(Fault::MoreVars {
                found: counts.vars,
                said: self.vars,
            });
        }
        if counts.clauses != self.clauses {
            return Err(Fault::OtherClauses {
                found: counts.clauses,
                said: self.clauses,
            });
        }
        Ok(())
    }
}

fn is_blank(b: u8) -> bool
    ensures { result ≡ is_blank b }
{
    matches!(b, SPACE | TAB | VERTICAL_TAB | FORM_FEED)
}

// A row's first word, and what is behind it.
fn split_word(row: &[u8]) -> (&[u8], &[u8])
    ensures word { result.0.now ≡ first_word row.now }
    ensures rest { result.1.now ≡ after_word row.now }
{
    let start = row.iter().position(|b| !is_blank(*b)).unwrap_or(row.len());
    let row = &row[start..];
    let end = row.iter().position(|b| is_blank(*b)).unwrap_or(row.len());
    row.split_at(end)
}

// The number of a word: digits, behind a plus or none, if it fits.
fn word_number(word: &[u8]) -> Option<u64>
    ensures { result ≡ first_of (word_number word.now) }
{
    str::from_utf8(word).ok()?.parse().ok()
}

// The numbers of a header from its words, one by one.
fn read_words(words: &[u8], line: u64) -> Result<Promise, Fault>
    ensures { result ≡ words_read words.now line }
{
    let bad = Fault::BadHeader { line };
    let (word, rest) = split_word(words);
    if word != FORMAT {
        return Err(bad);
    }
    let (word, rest) = split_word(rest);
    let vars = word_number(word).ok_or(bad)?;
    if vars > MOST_VARS {
        return Err(Fault::TooLarge { line });
    }
    let (word, rest) = split_word(rest);
    let clauses = word_number(word).ok_or(bad)?;
    let (word, _) = split_word(rest);
    if !word.is_empty() {
        return Err(bad);
    }
    Ok(Promise { vars, clauses })
}

// The whole line, without its end.
pub fn read_header(row: &[u8], line: u64) -> Result<Promise, Fault>
    ensures { result ≡ heading_read row.now line }
{
    let words = row.strip_prefix(b"p ").ok_or(Fault::BadHeader { line })?;
    read_words(words, line)
}
