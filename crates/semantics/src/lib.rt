//! What the engine's answers mean, from the history of its calls alone.
#![tactic(auto)]

pub mod histories;
pub mod refusal;
pub mod setup;
pub mod theorems;
pub mod windows;
