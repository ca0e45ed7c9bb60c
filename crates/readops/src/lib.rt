//! The instructions that read constants, texts, globals, objects and functions, and change nothing but the stacks. Where one would change more (a function
//! constant, an Add of texts, a printed line), it does nothing and says so.
#![tactic(auto)]

pub mod call;
pub mod constants;
pub mod lookups;
