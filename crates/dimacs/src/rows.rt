// Files as theorems: what the reader of the definitions says of small files, rule by rule.
// `file_rows_hold` promises each row; it does nothing.
ghost use Rattle.dimacs.specs.FileRows.{FileRows};

// Every row holds.
pub fn file_rows_hold()
    ensures { FileRows }
{}
