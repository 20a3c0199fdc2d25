// The types of a run: its record, the replies of a turn, the answers of the calls. No calls stand here: the definitions of specs/ speak of these types, and the code above
// promises to equal them.
#![tactic(auto)]

pub mod statuses;

use table::Refusal;

// What a worker holds: a thread and what is left of the quota, or nothing, with 0 for both.
#[derive(Clone, Copy)]
pub struct Worker {
    pub holds: bool,
    pub thread: u16,
    pub quota: u32,
}

// The run record of document 01.
#[derive(Clone, Copy)]
pub struct Run {
    // the table, and how many of its bytes are in use
    pub table: [u8; 36868],
    pub length: u16,
    // p and K
    pub workers: u8,
    pub quota: u32,
    // for each thread its next action and its status: 0 unborn, 1 ready, 2 held, 3 waiting, 4 ended
    pub next: [u16; 1024],
    pub status: [u8; 1024],
    // what each thread holds: its balance so far, 0 once it is joined
    pub amounts: [u64; 1024],
    // the list of threads that are forked and not ended, as links: each thread's neighbours, and the leftmost; 1,024 is no thread
    pub left: [u16; 1024],
    pub right: [u16; 1024],
    pub leftmost: u16,
    pub worker: [Worker; 16],
    // the workers that hold a thread, as a set of bits
    pub busy: u16,
    pub held: u64,
    pub highest: u64,
    pub turns: u64,
}

// What a turn says: idle; the action done; the amount wanted beyond the quota; the child waited for.
#[derive(Clone, Copy)]
pub enum Reply {
    Idle,
    Done { thread: u16, action: u16 },
    Quota { thread: u16, wanted: u32 },
    Wait { thread: u16, child: u16 },
}

#[derive(Drop)]
pub struct Begun {
    pub answer: Result<(), Refusal>,
    pub run: Run,
}

// A turn that was taken: its reply, and how many threads stood left of the one that the worker took, 0 where it took none.
#[derive(Clone, Copy)]
pub struct Taken {
    pub reply: Reply,
    pub passed: u16,
}

#[derive(Drop)]
pub struct Turned {
    pub answer: Result<Taken, Refusal>,
    pub run: Run,
}

// A run over a list or in rounds, three ends with the turns of each: finished at the root's end, spent at the end of the list or of the limit, or stopped by a refusal; each with the turns taken.
#[derive(Drop)]
pub enum Report {
    Finished(u64),
    Spent(u64),
    Refused(u64, Refusal),
}

#[derive(Drop)]
pub struct Ran {
    pub report: Report,
    pub run: Run,
}
