// What a run shows at its end: the order, the slots and the threads.
ghost use Rattle.std.specs.Prelude.{◌≡◌, ◌++◌, ◌≤◌, length, get_or, drop};
ghost use Rattle.faithful.specs.Views.{phase_of};
ghost use Rattle.run.specs.FinalTwin.{tab, shown_threads, held_as, held_at, gathered, listed_by, ordered_by};

use machine::{Phase, ThreadRecord};
use order::Rows;
use stepping::{Doing, State};

// The phase of what a thread is doing.
fn phase_of(doing: Doing) -> Phase
    ensures { result ≡ phase_of doing }
{
    match doing {
        Doing::Rest(_) => Phase::Rest,
        Doing::CalledPut(_) => Phase::CalledPut,
        Doing::Reserved(slot, _) => Phase::Reserved(slot),
        Doing::Stored(_) => Phase::Stored,
        Doing::CalledTake(_) => Phase::CalledTake,
        Doing::Scanning(slot, end, _) => Phase::Scanning(slot, end),
        Doing::Holding(_, x) => Phase::Holding(x),
    }
}

// The records of the first n threads; the others rest.
pub(crate) fn show_threads(threads: &[Doing; 16], n: usize) -> [ThreadRecord; 16]
    requires { n ≤ 16 }
    ensures { result ≡ shown_threads threads.now n }
{
    let mut records = [ThreadRecord { phase: Phase::Rest }; 16];
    for t in 0..n {
        records[t] = ThreadRecord {
            phase: phase_of(threads[t]),
        };
    }
    records
}

// The sample that a slot holds, 0 where it is empty: the sample of the put that owns it.
fn held_at(sample: &[i32], mark: u8, owner: u8) -> i32
    ensures { result ≡ held_as sample.now mark owner }
{
    // A mark is a number, as in the lent list of marks, which C reads.
    if mark == 0 {
        return 0;
    }
    sample.get(owner as usize).copied().unwrap_or(0)
}

// The marks of the first n slots.
pub(crate) fn show_marks(marks: &[u8; 64], n: usize, out: &mut [u8])
    requires { (n ≤ 64) × (n ≤ length out.old) }
    ensures { out.new ≡ tab n (λ i. get_or marks.now i 0) ++ drop n out.old }
{
    out[..n].copy_from_slice(&marks[..n]);
}

// The samples of the first n slots.
pub(crate) fn show_held(state: &State, sample: &[i32], n: usize, out: &mut [i32])
    requires { (n ≤ 64) × (n ≤ length out.old) }
    ensures { out.new ≡ tab n (held_at sample.now state.now.marks state.now.owners) ++ drop n out.old }
{
    for i in 0..n {
        out[i] = held_at(sample, state.marks[i], state.owners[i]);
    }
}

// The owners of the marked ones of the first n slots: the puts whose samples nobody found, by rising slot.
fn gather<'a>(state: &State, n: usize, row: &'a mut [u8; 64]) -> &'a [u8]
    requires { n ≤ 64 }
    ensures { result.now ≡ gathered state.now.marks state.now.owners 0 n }
{
    let mut len = 0;
    for i in 0..n {
        if state.marks[i] != 0 {
            row[len] = state.owners[i];
            len += 1;
        }
    }
    &row[..len]
}

// The listed order, into the lent order: how many entries it has.
pub(crate) fn list(state: &State, slots: usize, codes: &[u16], order: &mut [u8]) -> usize
    requires { (slots ≤ 64) × ((state.now.counts.events ≤ length codes.now) × (state.now.counts.finds ≤ 64)) }
    ensures value { result ≡ listed_by state.now slots codes.now (length order.old) }
    ensures order_after { order.new ≡ ordered_by state.now slots codes.now order.old }
{
    let mut row = [0; 64];
    let finds = state.counts.finds;
    let rows = Rows {
        takes: &state.takes[..finds],
        puts: &state.puts[..finds],
        others: gather(state, slots, &mut row),
    };
    order::list_order(&codes[..state.counts.events], &rows, order).unwrap_or(0)
}
