// A history read from its codes and samples, up to the first event that cannot stand (refusal 10).
ghost use Rattle.std.specs.Prelude.{◌≡◌, ◌≤◌, ◌<◌, ◌↔◌, IsTrue, length};
ghost use Rattle.judge.specs.Marks.{Fitting, EarlierBack, CallStands, ReturnStands, EventStands, Reads};

use crate::History;
use crate::marks::Marks;
use history::{Event, event_of};
use limits::{Kind, Refusal, Table};

// Whether every earlier operation of o's thread has returned.
fn are_back(table: &Table, marks: &Marks, o: usize) -> bool
    requires { o < length table.now.thread.now }
    ensures { IsTrue result ↔ EarlierBack table.now marks.now o }
{
    for p in 0..o {
        if table.thread[p] == table.thread[o] && marks.find_return(p).is_none() {
            return false;
        }
    }
    true
}

// Whether a call of o can stand next, with the sample x beside it.
fn can_call(table: &Table, marks: &Marks, o: usize, x: i32) -> bool
    requires { o < length table.now.thread.now }
    ensures { IsTrue result ↔ CallStands table.now marks.now o x }
{
    marks.find_call(o).is_none() && x == 0 && are_back(table, marks, o)
}

// Whether a return of o can stand next, with the sample x beside it.
fn can_return(table: &Table, marks: &Marks, o: usize, x: i32) -> bool
    requires { o < length table.now.kind.now }
    ensures { IsTrue result ↔ ReturnStands table.now marks.now o x }
{
    marks.find_call(o).is_some()
        && marks.find_return(o).is_none()
        && match Kind::of(table.kind[o]) {
            Kind::Put => x == 0,
            Kind::Take => true,
        }
}

// Whether this event can stand next, with the sample x beside it.
fn can_stand(table: &Table, marks: &Marks, event: Event, x: i32) -> bool
    requires { Fitting table.now }
    ensures { IsTrue result ↔ EventStands table.now marks.now event x }
{
    match event {
        Event::Call(o) => o < table.thread.len() && can_call(table, marks, o, x),
        Event::Return(o) => o < table.thread.len() && can_return(table, marks, o, x),
    }
}

// Where the events of a history stand, or refusal 10 of the first that cannot stand.
pub(crate) fn read_history(table: &Table, history: &History) -> Result<Marks, Refusal>
    requires { Fitting table.now × (length history.now.samples.now ≡ length history.now.codes.now) }
    ensures { Reads table.now history.now result }
{
    let mut marks = Marks::new();
    for (i, code) in history.codes.iter().enumerate() {
        let event = event_of(*code);
        if !can_stand(table, &marks, event, history.samples[i]) {
            return Err(Refusal::Event(i));
        }
        marks.note(event, i as u8);
    }
    Ok(marks)
}
