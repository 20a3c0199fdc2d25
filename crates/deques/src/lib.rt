// DFDeques, the thesis's second scheduler (change request N13): the types of its runs. No calls stand here: the definitions of specs/ speak of these types, and the code above promises to equal them.
#![tactic(auto)]

use schedule::{Reply, Report, Run};
use table::Refusal;

// The record of a run of DFDeques.
#[derive(Clone, Copy)]
pub struct DequeRun {
    // as AsyncDF's, but for its list, which has the lines: deque by deque from the left, the thread that the owner holds, then the deque's threads from the top to the bottom
    pub run: Run,
    // the bottoms, the last thread of each line, as links: their neighbours, and the leftmost; 1,024 is no thread
    pub under: [u16; 1024],
    pub over: [u16; 1024],
    pub first: u16,
}

// Beginning: the run, or the blank record.
#[derive(Drop)]
pub struct DequeBegun {
    pub answer: Result<(), Refusal>,
    pub run: DequeRun,
}

#[derive(Drop)]
pub struct DequeTurned {
    pub answer: Result<Reply, Refusal>,
    pub run: DequeRun,
}

// A run over a list of two bytes a turn.
#[derive(Drop)]
pub struct DequeRan {
    pub report: Report,
    pub run: DequeRun,
}
