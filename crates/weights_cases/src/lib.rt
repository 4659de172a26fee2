//! Table tests of the weight kinds and the follow rules.
#![tactic(auto)]

mod follow;
mod kinds;
