//! Patterns: read from a text, written back, and compiled to a template.
#![tactic(auto)]

mod accept;
mod compile;
mod draft;
mod node;
mod parser;
pub mod pattern;
mod read;
pub mod refusal;
pub mod scan;
mod stack;
pub mod template;
pub mod token;
mod write;

pub use crate::pattern::Pattern;
pub use crate::refusal::{ReadFault, ReadRefusal, WriteRefusal};
pub use crate::template::Template;
