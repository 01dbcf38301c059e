// What is made before the first step: the plan of the operations, so that no step searches the table, and the bench on which nothing moved.
ghost use Rattle.std.specs.Prelude.{◌≡◌, ℕ, ◌≤◌, ◌<◌, length, get_or};
ghost use Rattle.stepping.specs.PlanTwin.{plan_one, plan_from};
ghost use Rattle.stepping.specs.Twins.{state_with, no_finds, start_state};

use crate::{Counts, Doing, Finds, Moving, State};
use limits::Table;

// What stays as it is during a run: the table, and after each operation the next one of its thread, if any is left.
#[derive(Clone, Copy)]
pub(crate) struct Script<'a> {
    pub table: Table<'a>,
    pub next: [Option<u8>; 128],
}

// Each thread's first operation, and after each operation the next one of its thread.
#[derive(Clone, Copy)]
pub(crate) struct Plan {
    pub first: [Option<u8>; 16],
    pub next: [Option<u8>; 128],
}

impl Plan {
    // Puts operation o, of thread t, in front; the operations after o are in the plan.
    fn add(&mut self, t: usize, o: usize)
        requires { (t < 16) × (o < 128) }
        ensures { self.new ≡ plan_one self.old t o }
    {
        self.next[o] = self.first[t];
        self.first[t] = Some(o as u8);
    }

    // The plan of a table, made from its last operation to its first.
    pub(crate) fn new(thread: &[u8]) -> Plan
        requires { (length thread.now ≤ 128) × ((k : ℕ) → k < length thread.now → get_or thread.now k 0 < 16) }
        ensures { result ≡ plan_from 0 thread.now }
    {
        let mut plan = Plan {
            first: [None; 16],
            next: [None; 128],
        };
        for o in (0..thread.len()).rev() {
            plan.add(thread[o] as usize, o);
        }
        plan
    }
}

impl Moving {
    // A bench on which nothing moved; each thread calls its first operation next.
    pub(crate) fn new(first: [Option<u8>; 16]) -> Moving
        ensures { state_with result no_finds ≡ start_state first }
    {
        Moving {
            threads: first.map(Doing::Rest),
            counts: Counts {
                back: 0,
                events: 0,
                idle: 0,
                stores: 0,
                swaps: 0,
                finds: 0,
                fruitless: 0,
            },
            marks: [0; 64],
            owners: [0; 64],
        }
    }

    // The whole state, with its finds.
    pub(crate) fn join(self, finds: Finds) -> State
        ensures { result ≡ state_with self finds }
    {
        let Moving {
            threads,
            counts,
            marks,
            owners,
        } = self;
        let Finds { takes, puts } = finds;
        State {
            threads,
            counts,
            marks,
            owners,
            takes,
            puts,
        }
    }
}
