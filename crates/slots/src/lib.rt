//! Loops over the memory that an engine is lent: the kept events in places 0, 1, 2 and so on, and
//! eight slots of weights a place. Window k uses slot k mod 8.
#![tactic(auto)]

// Events and slots are two slices, since a caller lends them so; slots are no rows of eight, since the size of
// an array of any weights would be a premise that no caller can meet.

pub mod fill;
pub mod joined;
pub mod moved;
mod place;
pub mod scan;
