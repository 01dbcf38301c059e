// Conditions 20 to 23 on an order, by the marks of a history: each tells whether the whole order is free of the fault.
ghost use Rattle.std.specs.Prelude.{◌↔◌, IsTrue};
ghost use Rattle.judge.specs.Marks.{Free20, Free21, Free22, Free23};

use crate::marks::Marks;

// 20: every entry is an operation number, and none stands twice.
pub(crate) fn are_numbers(size: usize, order: &[u8]) -> bool
    ensures { IsTrue result ↔ Free20 size order.now }
{
    for (j, o) in order.iter().enumerate() {
        if *o as usize >= size || order[..j].contains(o) {
            return false;
        }
    }
    true
}

// 21: every listed operation was called.
pub(crate) fn are_called(marks: &Marks, order: &[u8]) -> bool
    ensures { IsTrue result ↔ Free21 marks.now order.now }
{
    order.iter().all(|o| marks.find_call(*o as usize).is_some())
}

// 22: every returned operation of the table is listed.
pub(crate) fn are_listed(size: u8, marks: &Marks, order: &[u8]) -> bool
    ensures { IsTrue result ↔ Free22 size marks.now order.now }
{
    for o in 0..size {
        if marks.find_return(o as usize).is_some() && !order.contains(&o) {
            return false;
        }
    }
    true
}

// 23: no operation stands before one that precedes it.
pub(crate) fn are_in_turn(marks: &Marks, order: &[u8]) -> bool
    ensures { IsTrue result ↔ Free23 marks.now order.now }
{
    for (j, a) in order.iter().enumerate() {
        if order[..j]
            .iter()
            .any(|b| marks.is_earlier(*a as usize, *b as usize))
        {
            return false;
        }
    }
    true
}
