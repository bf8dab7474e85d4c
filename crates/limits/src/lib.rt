// The numbers of document 01 that bound what is taken, each said once. specs/ has them for the definitions.
#![tactic(auto)]

// Vertices of a skeleton, at most; so digits of a code too.
pub const SIZE: usize = 64;

// Neighbours of a vertex, at most.
pub const VALENCE: u8 = 4;

// Places in a row of the table of neighbours: no vertex may have more neighbours.
pub const WIDTH: usize = 9;

// Atoms that a mark can name, and the neighbours that the first of them may have, at most.
pub const ATOMS: u8 = 3;

pub const BONDS: u8 = 4;

// The values of a byte: an array of so many has a place for each.
pub const BYTES: usize = 256;

// Bytes of an edge list of SIZE vertices.
pub const ENDS: usize = 126;

// Bytes of a packed code, at most.
pub const PACKED: usize = 16;

// Vertices of a skeleton whose code is a whole number, a fraction, a 0A or an A0, at most.
pub const WHOLE: usize = 32;

pub const FRACTION: usize = 27;

pub const ZERO_A: usize = 21;

pub const A_ZERO: usize = 11;
