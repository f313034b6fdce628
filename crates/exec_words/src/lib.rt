// Words of the machine: arithmetic and branch tests on their numbers (module arith), and lent words, kinds beside numbers, read and written
// (module memory). Promised: each answer, and every word written, is what crate exec says of it. Asked, where no test is made: that the
// words are lent.
#![tactic(auto)]

pub mod arith;
pub mod memory;
