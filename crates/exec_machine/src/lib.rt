// The machine's place and its stops, and what a step does by a decoded program's tables (specs/Step.antt): the step of crate exec, for
// each program that the tables represent (proofs/Exec.antt: `step_is`).
#![tactic(auto)]

// How many stack and heap words are in use, and the next instruction, counted from 0 over all blocks.
#[derive(Clone, Copy)]
pub struct Place {
    pub depth: u32,
    pub used: usize,
    pub position: usize,
}

// Why a run stops.
#[derive(Clone, Copy)]
pub enum Stop {
    Halted,
    StackFull,
    HeapFull,
    Stuck,
}
