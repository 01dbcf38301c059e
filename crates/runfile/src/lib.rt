// Run files: what their reader and their writer answer. No code of its own: the definitions, and what is claimed of them.
#![tactic(auto)]

use limits::Kind;

// The numbers of a run that a text holds: its threads, slots, operations and schedule entries.
#[derive(Clone, Copy)]
pub struct Sizes {
    pub threads: u8,
    pub slots: u8,
    pub operations: usize,
    pub steps: usize,
}

// An operation that a line holds.
#[derive(Clone, Copy)]
pub struct Operation {
    pub thread: u8,
    pub kind: Kind,
    pub sample: i32,
}
