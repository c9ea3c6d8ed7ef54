// The sink that keeps what a command shows and writes, in the order in which it came.
// It promises that what it holds grows by just what it is told.
ghost use Rattle.std.specs.Prelude.{◌≡◌, [], ◌++◌};
ghost use Rattle.solver.specs.Collected.{grown, grown_by_nothing};

use crate::run::Output;
use std::alloc::Global;

#[derive(Drop)]
pub struct Collected {
    pub shown: Vec<u64>,
    pub written: Vec<u8>,
}

impl Collected {
    pub fn new(heap: Global) -> Collected
        ensures shown { result.shown.items ≡ [] }
        ensures written { result.written.items ≡ [] }
    {
        Collected {
            shown: Vec::new(heap),
            written: Vec::new(heap),
        }
    }
}

impl Output for Collected {
    ghost told = { λ a ss ws b. (b.shown.items ≡ a.shown.items ++ ss) × (b.written.items ≡ a.written.items ++ ws) };

    ghost nothing = { λ a. (grown_by_nothing a.shown.items, grown_by_nothing a.written.items) };

    ghost after = { λ a b c ss ts ws vs p q. (grown _ _ _ ss ts p.0 q.0, grown _ _ _ ws vs p.1 q.1) };

    fn show(&mut self, n: u64) -> bool {
        self.shown.push(n).is_ok()
    }

    fn write(&mut self, bytes: &[u8]) -> bool {
        self.written.extend_from_slice(bytes).is_ok()
    }
}
