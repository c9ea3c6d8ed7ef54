// The search, over its own table `work` alone: it promises what a look finds and what is then done about it.
#![tactic(auto, unfolding(crate::specs::Plain::lit_false, crate::specs::Plain::act, crate::specs::Plain::model_lit))]

mod clauses;
pub mod plain;
