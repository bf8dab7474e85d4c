// Skeletons with named atoms: every public call on them and nothing else. Each vertex is C, N or O, by a letter for each. The calls are of edition 1.
#![tactic(auto)]

pub mod alike;
pub mod carbon;
pub mod codes;
mod lists;
pub mod maps;
mod marked;
pub mod text;
