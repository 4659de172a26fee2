//! The operations of the four kinds.
pub mod count;
pub mod least;
pub mod least_ways;
pub mod most;
