// What the bench shows of a thread. Definitions of the bench and its steps, and their laws, stand in specs/ and proofs/.
#![tactic(auto)]

// A thread's phase, with its number where it has one: the slot reserved; the next slot of a pass, and the pass's end; the sample found.
#[derive(Clone, Copy, Debug, PartialEq, Eq)]
pub enum Phase {
    Rest,
    CalledPut,
    Reserved(u8),
    Stored,
    CalledTake,
    Scanning(u8, u8),
    Holding(i32),
}

// A thread at the end of a run.
#[derive(Clone, Copy, Debug, PartialEq, Eq)]
pub struct ThreadRecord {
    pub phase: Phase,
}
