// Tables of numbers in lent memory. Nothing is refused: a read past the end is 0, a write past the end
// changes nothing, so that code over memory of unknown contents stays safe.
ghost use Rattle.std.specs.Prelude.{◌≡◌, min, length, take, drop, replicate, slice_index, slice_set};
ghost use Rattle.std.proofs.lemmas.List.Edits.{sets};

pub fn get(table: &[u64], i: u64) -> u64
    ensures { result ≡ slice_index table.now i }
{
    table.get(i as usize).copied().unwrap_or(0)
}

pub fn put(table: &mut [u64], i: u64, value: u64)
    ensures { table.new ≡ slice_set table.old i value }
{
    // The index is tested by hand: the library says nothing of a slice once what `get_mut` lends is over.
    let i = i as usize;
    if i < table.len() {
        table[i] = value;
    }
}

// The part of at most `len` numbers from `start` on.
pub fn part(table: &[u64], start: u64, len: u64) -> &[u64]
    ensures { result.now ≡ take len (drop start table.now) }
{
    let rest = &table[table.len().min(start as usize)..];
    &rest[..rest.len().min(len as usize)]
}

// The row written from `start` on, as far as the table goes.
pub fn write_row(table: &mut [u64], start: u64, row: &[u64])
    ensures { table.new ≡ sets table.old start row.now }
{
    let start = table.len().min(start as usize);
    let len = row.len().min(table.len() - start);
    table[start..start + len].copy_from_slice(&row[..len]);
}

// All numbers 0.
pub fn clear(table: &mut [u64])
    ensures { table.new ≡ replicate (length table.old) 0 }
{
    table.fill(0);
}
