// One entry of the schedule that is no plain step, over the lent trace and work store: FORK, a meeting, or one line,
// which is run_single's. Room for its lines is asked for before anything is written, so that an entry that does not fit
// leaves all as it was. The contracts are equations on the words of trace and store; that they are the definitions'
// entry is `entry-law` (proofs/Stepped.antt). Asked is what the crate run_ability asks, and fewer than 16,000,000 lines
// so far.
#![tactic(auto)]

pub mod entry;
pub mod forking;
pub mod meeting;
