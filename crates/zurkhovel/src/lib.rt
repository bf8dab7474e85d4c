// The front door: every public call of the library, and nothing else. Each takes any input, makes its own checks, and keeps the promise
// that its `ensures` names; the promises stand in specs/, a file for each module here. `named` has calls of
// the same names, and C has both: their tables, outputs and theorems differ, and what they share is one function in a crate below both.
#![tactic(auto)]

pub mod alike;
pub mod bit_tuple;
pub mod codes;
mod editions;
pub mod maps;
pub mod matrix;
pub mod text;
