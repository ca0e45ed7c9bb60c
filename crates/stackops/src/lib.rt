//! The instructions that change nothing but the stacks, each under its name in 001.
#![tactic(auto)]

pub mod arithmetic;
pub mod comparison;
pub mod control;
pub mod locals;
pub mod operators;
