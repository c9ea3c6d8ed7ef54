// The conflict-driven search, over its own table `work` alone: each module promises just what its definitions say, on any table.
// Not used by the solver yet.
#![tactic(auto)]

mod analyze_conflict;
pub mod answer;
mod assignment;
mod clauses;
mod decide;
mod learn;
pub mod load;
mod propagate;
mod scalar;
pub mod turn;
pub mod vsids;
mod watch;
mod work;
