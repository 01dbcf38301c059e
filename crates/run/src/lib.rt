// A table, a number of slots and a schedule go in; the run, or a numbered refusal, comes out.
#![tactic(auto)]

ghost use Rattle.std.specs.Prelude.{◌≡◌};
ghost use Rattle.limits.specs.Inputs.{input_in};
ghost use Rattle.run.specs.Lent.{SameLists, lists_in};
ghost use Rattle.run.specs.Core.{RunSays};
ghost use Rattle.run.specs.FinalTwin.{rest_room, Concludes, Concluded};

mod finish;

use limits::{Input, Refusal};
use machine::ThreadRecord;
use stepping::State;

// Number of events, length of the order, reservation count, and the six counts.
#[derive(Clone, Copy)]
pub struct Summary {
    pub events: usize,
    pub order: usize,
    pub back: usize,
    pub steps: usize,
    pub idle: usize,
    pub stores: usize,
    pub swaps: usize,
    pub finds: usize,
    pub fruitless: usize,
}

// An accepted run: its numbers, and the thread records; the first are those of the threads, the others rest.
#[derive(Clone, Copy)]
pub struct Ran {
    pub summary: Summary,
    pub records: [ThreadRecord; 16],
}

// The lists of numbers that a run's caller lends: event codes, event samples, order, slot marks, slot samples.
#[derive(Drop)]
pub struct Lent<'a> {
    pub codes: &'a mut [u16],
    pub values: &'a mut [i32],
    pub order: &'a mut [u8],
    pub marks: &'a mut [u8],
    pub held: &'a mut [i32],
}

impl Lent<'_> {
    // Whether the lists that only the end of a run fills are long enough, and there is room for the thread records.
    fn is_roomy(&self, input: &Input, room: usize) -> bool
        ensures { result ≡ rest_room (input_in input.now) (lists_in self.now) room }
    {
        input.table.thread.len() <= self.order.len()
            && input.slots <= self.marks.len()
            && input.slots <= self.held.len()
            && input.threads <= room
    }

    // What a run that was played shows, and its numbers.
    fn conclude(&mut self, input: &Input, state: &State) -> Ran
        requires { Concludes (input_in input.now) state.now (lists_in self.old) }
        ensures same_lists { SameLists self.old self.new }
        ensures concluded { Concluded (input_in input.now) state.now (lists_in self.old) (lists_in self.new) result }
    {
        let slots = input.slots;
        // The codes are only read: they are lent by name since the order, another field, is lent beside them.
        let codes = &mut *self.codes;
        let listed = finish::list(state, slots, codes, self.order);
        finish::show_marks(&state.marks, slots, self.marks);
        finish::show_held(state, input.table.sample, slots, self.held);
        let counts = state.counts;
        let records = finish::show_threads(&state.threads, input.threads);
        Ran {
            summary: Summary {
                events: counts.events,
                order: listed,
                back: counts.back,
                steps: input.schedule.len(),
                idle: counts.idle,
                stores: counts.stores,
                swaps: counts.swaps,
                finds: counts.finds,
                fruitless: counts.fruitless,
            },
            records,
        }
    }
}

// The run, with the thread records by value; `room` is how many records the caller can take.
pub fn run_core(input: &Input, lent: &mut Lent, room: usize) -> Result<Ran, Refusal>
    ensures same_lists { SameLists lent.old lent.new }
    ensures says { RunSays (input_in input.now) (lists_in lent.old) (lists_in lent.new) room result }
{
    let roomy = lent.is_roomy(input, room);
    let state = stepping::play(input, roomy, lent.codes, lent.values)?;
    Ok(lent.conclude(input, &state))
}
