// The judge: whether an order that anyone proposes is a linearization of a history. It knows nothing of slots and phases.
#![tactic(auto)]

ghost use Rattle.std.specs.Prelude.{◌≡◌};
ghost use Rattle.judge.specs.Judge.{judged};
ghost use Rattle.judge.specs.Marks.{Fitting, Finds};

use crate::marks::Marks;
use limits::{Refusal, Table};
use linear::Verdict;

mod conditions;
mod marks;
mod play;
mod queue;
mod standing;

// A history: the codes of its events, and the sample beside each.
#[derive(Clone, Copy)]
pub struct History<'a> {
    pub codes: &'a [u16],
    pub samples: &'a [i32],
}

// The first fault of an order, by the marks of a history that was read to its end.
fn find_fault(table: &Table, history: &History, marks: &Marks, order: &[u8]) -> Verdict
    requires { Fitting table.now }
    ensures { Finds table.now history.now marks.now order.now result }
{
    if !conditions::are_numbers(table.thread.len(), order) {
        return Verdict::NoOperation;
    }
    if !conditions::are_called(marks, order) {
        return Verdict::Uncalled;
    }
    if !conditions::are_listed(table.thread.len() as u8, marks, order) {
        return Verdict::Missing;
    }
    if !conditions::are_in_turn(marks, order) {
        return Verdict::Turned;
    }
    if !play::is_played(table, history, marks, order) {
        return Verdict::Unplayable;
    }
    Verdict::Linear
}

// The verdict on `order` for a history of the table's operations, or the lowest refusal that applies. Nothing is asked of the caller.
#[tactic(auto, using(crate::proofs::RefusalLaws::table_fits, crate::proofs::JudgedLaws::judged_apart, crate::proofs::JudgedLaws::judged_together, crate::proofs::JudgedLaws::judged_read))]
pub fn judge(
    threads: usize,
    table: &Table,
    history: &History,
    order: &[u8],
) -> Result<Verdict, Refusal>
    ensures { result ≡ judged threads table.now.thread.now table.now.kind.now table.now.sample.now history.now.codes.now history.now.samples.now order.now }
{
    if history.samples.len() != history.codes.len() {
        return Err(if (1..=16).contains(&threads) {
            Refusal::Lengths
        } else {
            Refusal::Threads
        });
    }
    table.check(threads)?;
    let marks = standing::read_history(table, history)?;
    Ok(find_fault(table, history, &marks, order))
}
