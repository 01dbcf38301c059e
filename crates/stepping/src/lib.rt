// Plays an input: the refusals, then the schedule, step by step, from a bench on which nothing moved.
#![tactic(auto)]

ghost use Rattle.std.specs.Prelude.{◌≡◌, ◌≤◌};
ghost use Rattle.limits.specs.Inputs.{input_in};
ghost use Rattle.stepping.specs.Twins.{room_in, played, play_twin};

mod cells;
mod event;
mod plan;
mod put;
mod steps;
mod take;

use crate::plan::{Plan, Script};
use limits::{Input, Refusal};

// What a thread is doing, and the operation that it works on: before it stand the slot reserved, or the next slot and the end of the
// pass, and after it the sample found. At rest it is the one that the thread calls next, if any is left.
#[derive(Clone, Copy)]
pub enum Doing {
    Rest(Option<u8>),
    CalledPut(u8),
    Reserved(u8, u8),
    Stored(u8),
    CalledTake(u8),
    Scanning(u8, u8, u8),
    Holding(u8, i32),
}

// The reservation count, the number of events, and the counts of a run's steps. Each rises by one a step at most, so that they stay within the
// schedule's length: each step asks for that and gives it on, since no invariant of a state could say how many steps there were.
#[derive(Clone, Copy)]
pub struct Counts {
    pub back: usize,
    pub events: usize,
    pub idle: usize,
    pub stores: usize,
    pub swaps: usize,
    pub finds: usize,
    pub fruitless: usize,
}

// The whole state of a run: what the threads do, the counts, each slot's mark and the put that owns it, and the takes that found a
// sample beside the puts that they found. A slot's sample is that of its owner.
#[derive(Clone, Copy)]
pub struct State {
    pub threads: [Doing; 16],
    pub counts: Counts,
    pub marks: [u8; 64],
    pub owners: [u8; 64],
    pub takes: [u8; 64],
    pub puts: [u8; 64],
}

// The part of a state that each step takes by value and gives back: all but the finds, which no step reads.
#[derive(Clone, Copy)]
struct Moving {
    threads: [Doing; 16],
    counts: Counts,
    marks: [u8; 64],
    owners: [u8; 64],
}

// The other part: the takes that found a sample, beside the puts that they found. It is lent to each step.
#[derive(Clone, Copy)]
struct Finds {
    takes: [u8; 64],
    puts: [u8; 64],
}

// A state taken apart, each part lent by itself: a phase writes the parts that it changes, where they lie.
#[derive(Drop)]
struct Parts<'a> {
    threads: &'a mut [Doing; 16],
    counts: &'a mut Counts,
    marks: &'a mut [u8; 64],
    owners: &'a mut [u8; 64],
    takes: &'a mut [u8; 64],
    puts: &'a mut [u8; 64],
}

// The lists lent for events: their codes, and the sample beside each.
#[derive(Drop)]
struct Events<'a> {
    codes: &'a mut [u16],
    values: &'a mut [i32],
}

// Whether two events an operation fit what is lent.
fn has_room(roomy: bool, operations: usize, codes: usize, values: usize) -> bool
    requires { operations ≤ 128 }
    ensures { result ≡ room_in roomy operations codes values }
{
    roomy && 2 * operations <= codes && 2 * operations <= values
}

// Refusals 1 to 9, then the run. `roomy` says whether what the caller lends elsewhere is long enough.
pub fn play(
    input: &Input,
    roomy: bool,
    codes: &mut [u16],
    values: &mut [i32],
) -> Result<State, Refusal>
    ensures { played result codes.new values.new ≡ play_twin (input_in input.now) roomy codes.old values.old }
{
    input.check()?;
    if !has_room(roomy, input.table.thread.len(), codes.len(), values.len()) {
        return Err(Refusal::Room);
    }
    let Plan { first, next } = Plan::new(input.table.thread);
    let script = Script {
        table: input.table,
        next,
    };
    let mut finds = Finds {
        takes: [0; 64],
        puts: [0; 64],
    };
    let moving = Moving::new(first).run_all(
        input.schedule,
        &script,
        &mut finds,
        &mut Events { codes, values },
    );
    Ok(moving.join(finds))
}
