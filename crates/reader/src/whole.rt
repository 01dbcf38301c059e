// A whole text, line by line: the first two lines, the operations, the schedule.
ghost use Rattle.std.specs.Prelude.{◌≡◌, OnOk, ◌+◌, ◌≤◌, length, drop, set};
ghost use Rattle.runfile.specs.Reading.{parts, steps_from, read_of};
ghost use Rattle.reader.specs.Lent.{SameLists};
ghost use Rattle.reader.specs.Twins.{HeadSays, OpsSays, StepsSay, SameLengths, ParsedSays};

use crate::Lent;
use crate::fields::{find, read_line, read_op, read_step};
use limits::Refusal;
use runfile::Sizes;

// The first two lines: threads, slots, and where the third line begins.
#[derive(Clone, Copy)]
struct Head {
    threads: u8,
    slots: u8,
    place: usize,
}

// The operations of a text: how many, and where the line after them begins, with its number.
#[derive(Clone, Copy)]
struct Ops {
    count: usize,
    place: usize,
    line: usize,
}

// The first two lines.
fn read_head(text: &[u8]) -> Result<Head, Refusal>
    ensures { HeadSays text.now result }
{
    let Some((threads, second)) = read_line(text, 0, b"threads") else {
        return Err(Refusal::Line(1));
    };
    let Some((slots, place)) = read_line(text, second, b"slots") else {
        return Err(Refusal::Line(2));
    };
    Ok(Head {
        threads,
        slots,
        place,
    })
}

// Stores x at i, where there is such a place.
fn store<T: Copy>(out: &mut [T], i: usize, x: T)
    ensures { out.new ≡ set out.old i x }
{
    if i < out.len() {
        out[i] = x;
    }
}

// The operations, in the lines from a place on, up to the first line that holds none; the first of them has the number first.
fn read_ops(text: &[u8], from: usize, first: usize, lent: &mut Lent) -> Ops
    requires { (length text.now ≤ 65536) × ((from ≤ length text.now) × (first ≤ from + 1)) }
    ensures same_lists { SameLists lent.old lent.new }
    ensures schedule { lent.new.schedule.now ≡ lent.old.schedule.now }
    ensures read { OpsSays text.now from first lent.old.thread.now lent.old.kind.now lent.old.sample.now lent.new.thread.now lent.new.kind.now lent.new.sample.now result.count result.place result.line }
{
    let mut read = Ops {
        count: 0,
        place: from,
        line: first,
    };
    // A `loop`: a turn goes on by the line that was read, and ends at the first that holds no operation.
    loop {
        let e = find(text, read.place, b'\n');
        if text.len() <= e {
            return read;
        }
        let Some(operation) = read_op(text, read.place, e) else {
            return read;
        };
        store(lent.thread, read.count, operation.thread);
        store(lent.kind, read.count, operation.kind.number());
        store(lent.sample, read.count, operation.sample);
        read = Ops {
            count: read.count + 1,
            place: e + 1,
            line: read.line + 1,
        };
    }
}

// How many entries the schedule has, in the lines from a place on; the first of them has the number first.
fn read_steps(text: &[u8], from: usize, first: usize, out: &mut [u8]) -> Result<usize, Refusal>
    requires { (length text.now ≤ 65536) × ((from ≤ length text.now) × (first ≤ from + 1)) }
    ensures { StepsSay (steps_from first (parts 10 (drop from text.now))) result out.old out.new }
{
    let mut a = from;
    let mut count: usize = 0;
    // A `while`: a turn goes on by the line that was read.
    while a < text.len() {
        let Some((thread, next)) = read_step(text, a) else {
            return Err(Refusal::Line(first + count));
        };
        store(out, count, thread);
        count += 1;
        a = next;
    }
    Ok(count)
}

// A whole text, its lists into the lent ones as far as they reach.
pub(crate) fn parse(text: &[u8], lent: &mut Lent) -> Result<Sizes, Refusal>
    requires { length text.now ≤ 65536 }
    ensures same_lists { SameLists lent.old lent.new }
    ensures lengths { OnOk result (SameLengths lent.old lent.new) }
    ensures says { ParsedSays (read_of text.now) result lent.old.thread.now lent.old.kind.now lent.old.sample.now lent.old.schedule.now lent.new.thread.now lent.new.kind.now lent.new.sample.now lent.new.schedule.now }
{
    let head = read_head(text)?;
    let ops = read_ops(text, head.place, 3, lent);
    let steps = read_steps(text, ops.place, ops.line, lent.schedule)?;
    Ok(Sizes {
        threads: head.threads,
        slots: head.slots,
        operations: ops.count,
        steps,
    })
}
