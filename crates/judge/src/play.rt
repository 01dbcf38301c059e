// Condition 24: the order played on a plain queue that starts empty.
ghost use Rattle.std.specs.Prelude.{◌↔◌, IsTrue, [], length};
ghost use Rattle.judge.specs.Marks.{Fitting, Free20, Gets, PlaysOn};

use crate::History;
use crate::marks::Marks;
use crate::queue::Queue;
use limits::{Kind, Table};

// Whether o, if it has returned, returned x.
fn may_get(history: &History, marks: &Marks, o: usize, x: i32) -> bool
    ensures { IsTrue result ↔ Gets history.now marks.now o x }
{
    marks.find_return(o).is_none_or(|i| history.samples.get(i as usize).is_none_or(|got| *got == x))
}

// 24: every take meets a sample, and every returned take the one that it returned.
pub(crate) fn is_played(table: &Table, history: &History, marks: &Marks, order: &[u8]) -> bool
    requires { Fitting table.now × Free20 (length table.now.thread.now) order.now }
    ensures { IsTrue result ↔ PlaysOn table.now history.now marks.now [] order.now }
{
    let mut queue = Queue::new();
    for o in order {
        let o = *o as usize;
        match Kind::of(table.kind[o]) {
            Kind::Put => queue.push(table.sample[o]),
            Kind::Take => {
                let Some(x) = queue.pop() else {
                    return false;
                };
                if !may_get(history, marks, o, x) {
                    return false;
                }
            }
        }
    }
    true
}
