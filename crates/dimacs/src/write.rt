// A formula's text, written piece by piece into a row of bytes, with no memory of its own.
// Each writer promises just the bytes that the definitions have, or, without 128 bytes of room, that nothing is written.
ghost use Rattle.std.specs.Prelude.{◌≡◌, ◌+◌, ◌≤◌, length, nat_le};
ghost use Rattle.dimacs.specs.Text.{number_text};
ghost use Rattle.dimacs.specs.Pieces.{header_text, literal_piece, end_piece, Puts};
ghost use Rattle.dimacs.specs.Written.{Written};

use formula::literal::{is_negated, variable};
use itoa::Buffer;

// The bytes of room that a writer asks for.
const ROOM: usize = 128;

// Where a text ends that is written at a place.
fn put_text(out: &mut [u8], start: usize, text: &[u8]) -> usize
    requires { start + length text.now ≤ length out.old }
    ensures { Written text.now out.old start result out.new }
{
    let end = start + text.len();
    out[start..end].copy_from_slice(text);
    end
}

fn put_number(out: &mut [u8], start: usize, n: u64) -> usize
    requires { start + 20 ≤ length out.old }
    ensures text { Written (number_text n) out.old start result out.new }
    ensures near { result ≤ start + 20 }
{
    put_text(out, start, Buffer::new().format(n).as_bytes())
}

// The line "p cnf", the variables and the clauses: how many bytes.
pub fn put_header(vars: u64, clauses: u64, out: &mut [u8]) -> u64
    ensures { Puts (header_text vars clauses) out.old (nat_le 128 (length out.old)) result out.new }
{
    if out.len() < ROOM {
        return 0;
    }
    let vars_at = put_text(out, 0, b"p cnf ");
    let blank_at = put_number(out, vars_at, vars);
    let clauses_at = put_text(out, blank_at, b" ");
    let end = put_number(out, clauses_at, clauses);
    put_text(out, end, b"\n") as u64
}

// A literal and a blank.
pub fn put_literal(lit: u64, out: &mut [u8]) -> u64
    ensures { Puts (literal_piece lit) out.old (nat_le 128 (length out.old)) result out.new }
{
    if out.len() < ROOM {
        return 0;
    }
    let sign = if is_negated(lit) { "-" } else { "" };
    let number_at = put_text(out, 0, sign.as_bytes());
    let end = put_number(out, number_at, variable(lit) + 1);
    put_text(out, end, b" ") as u64
}

// The end of a clause: 0 and a newline.
#[tactic(auto, using(crate::proofs::Writing::puts_all), unfolding(crate::specs::Pieces::end_piece))]
pub fn put_end(out: &mut [u8]) -> u64
    ensures { Puts end_piece out.old (nat_le 128 (length out.old)) result out.new }
{
    if out.len() < ROOM {
        return 0;
    }
    put_text(out, 0, b"0\n") as u64
}
