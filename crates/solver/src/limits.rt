// The limits of what can be said, as the refusals name them.
pub const MAX_VARS: u64 = 16384;

pub const MAX_LITERAL: u64 = 32767;

pub const MAX_ROW: usize = 1024;

pub const MAX_CLAUSES: u64 = 16384;

pub const MAX_LITERALS: u64 = 65536;

// Refusals have numbers up to this.
pub const LAST_REFUSAL: u64 = 999;
