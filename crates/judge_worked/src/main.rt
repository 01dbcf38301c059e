// Run I of document 01 and other questions to the judge. Each answer is one line, compared with the file `stdout`:
// v, the verdict's number and 00; or r, the refusal's number and its detail.
#![tactic(auto)]

ghost use Rattle.std.specs.Prelude.{◌≤◌};

use judge::History;
use limits::{Refusal, Table};
use linear::Verdict;
use std::io;

// A line: a letter and two numbers, of two digits each.
fn write_line(rt: &impl Print, letter: char, number: u8, detail: usize) -> io::Result<()> {
    println!(rt; "{letter} {number:02} {detail:02}")
}

fn show(rt: &impl Print, answer: Result<Verdict, Refusal>) -> io::Result<()> {
    match answer {
        Ok(v) => write_line(rt, 'v', v.number(), 0),
        Err(r) => write_line(rt, 'r', r.number(), r.detail() % 100),
    }
}

// Run A's table, with another history.
fn ask(rt: &impl Print, threads: usize, history: &History, order: &[u8]) -> io::Result<()> {
    let table = Table {
        thread: b"\x00\x01\x02",
        kind: b"\x01\x01\x02",
        sample: &[100, 0, 0],
    };
    show(rt, judge::judge(threads, &table, history, order))
}

// Run A's history, in an order.
fn ask_order(rt: &impl Print, order: &[u8]) -> io::Result<()> {
    let history = History {
        codes: &[0, 2, 3, 4, 5, 1],
        samples: &[0; 6],
    };
    ask(rt, 3, &history, order)
}

// Run I: the judge on run A's history.
fn run_i(rt: &impl Print) -> io::Result<()> {
    ask_order(rt, b"\x01\x02\x00")?;
    ask_order(rt, b"\x00\x01\x02")?;
    ask_order(rt, b"\x01\x02")?;
    ask_order(rt, b"\x02\x01\x00")?;
    ask_order(rt, b"\x01\x01\x02")
}

// A put that has returned and a take that has not, in an order.
fn ask_waiting(rt: &impl Print, order: &[u8]) -> io::Result<()> {
    let history = History {
        codes: &[0, 1, 4],
        samples: &[0; 3],
    };
    ask(rt, 3, &history, order)
}

// Orders that are too long or of no operation, and operations that have not returned.
fn other_orders(rt: &impl Print) -> io::Result<()> {
    ask_waiting(rt, b"\x00\x02")?;
    ask_waiting(rt, b"\x00")?;
    ask_waiting(rt, b"\x02")?;
    ask_waiting(rt, b"\x02\x00")?;
    ask_waiting(rt, b"\x00\x01")?;
    ask_waiting(rt, b"\x00\x02\x01\x00")?;
    ask_waiting(rt, b"\x00\x03")?;
    ask_waiting(rt, b"\x01\x00\x00")
}

// A put and then a take, which gives a sample.
fn ask_taken(rt: &impl Print, got: i32) -> io::Result<()> {
    let history = History {
        codes: &[0, 1, 4, 5],
        samples: &[0, 0, 0, got],
    };
    ask(rt, 3, &history, b"\x00\x02")
}

// Three events, a sample with the second, and an empty order.
fn ask_events(rt: &impl Print, codes: &[u16; 3], sample: i32) -> io::Result<()> {
    let history = History {
        codes,
        samples: &[0, sample, 0],
    };
    ask(rt, 3, &history, b"")
}

// Histories that are refused.
fn histories(rt: &impl Print) -> io::Result<()> {
    ask_events(rt, &[0, 6, 2], 0)?;
    ask_events(rt, &[65535, 0, 2], 0)?;
    ask_events(rt, &[0, 2, 0], 0)?;
    ask_events(rt, &[0, 3, 2], 0)?;
    ask_events(rt, &[0, 1, 1], 0)?;
    ask_events(rt, &[0, 2, 4], 7)?;
    ask_events(rt, &[0, 1, 4], 7)
}

// Three calls, for a number of threads and with samples.
fn ask_calls(rt: &impl Print, threads: usize, samples: &[i32]) -> io::Result<()> {
    let history = History {
        codes: &[0, 2, 4],
        samples,
    };
    ask(rt, threads, &history, b"")
}

// Samples that are too few, and numbers of threads.
fn other_bounds(rt: &impl Print) -> io::Result<()> {
    ask_calls(rt, 3, &[0; 2])?;
    ask_calls(rt, 0, &[0; 2])?;
    ask_calls(rt, 17, &[0; 3])?;
    ask_calls(rt, 16, &[0; 3])?;
    ask_calls(rt, 2, &[0; 3])
}

// A table for one thread, with codes and samples that are no events, and an empty order.
fn ask_table(rt: &impl Print, table: &Table, samples: &[i32]) -> io::Result<()> {
    let history = History {
        codes: &[],
        samples,
    };
    show(rt, judge::judge(1, table, &history, b""))
}

// A table whose samples are 5 and 0, with no history.
fn ask_pair(rt: &impl Print, thread: &[u8], kind: &[u8]) -> io::Result<()> {
    let table = Table {
        thread,
        kind,
        sample: &[5, 0],
    };
    ask_table(rt, &table, &[])
}

// Tables that are refused.
fn tables(rt: &impl Print) -> io::Result<()> {
    ask_pair(rt, b"\x00\x00", b"\x01\x02\x02")?;
    ask_pair(rt, b"\x00\x01", b"\x01\x02")?;
    ask_pair(rt, b"\x00\x00", b"\x01\x03")?;
    ask_pair(rt, b"\x00\x00", b"\x02\x01")
}

// A put and a take of one thread, and two events: the put has not returned.
fn ask_one(rt: &impl Print, first: u16, second: u16, got: i32) -> io::Result<()> {
    let table = Table {
        thread: b"\x00\x00",
        kind: b"\x01\x02",
        sample: &[5, 0],
    };
    let history = History {
        codes: &[first, second],
        samples: &[0, got],
    };
    show(rt, judge::judge(1, &table, &history, b""))
}

// Puts without a history, as many as this.
fn ask_puts(rt: &impl Print, puts: usize, samples: &[i32]) -> io::Result<()>
    requires { puts ≤ 129 }
{
    let table = Table {
        thread: &[0; 129][..puts],
        kind: &[1; 129][..puts],
        sample: &[0; 129][..puts],
    };
    ask_table(rt, &table, samples)
}

// Tables at the bound and past it.
fn long_tables(rt: &impl Print) -> io::Result<()> {
    ask_puts(rt, 129, &[])?;
    ask_puts(rt, 129, &[0; 2])?;
    ask_puts(rt, 128, &[])
}

fn main(rt: HostRuntime) -> io::Result<()> {
    run_i(&rt)?;
    other_orders(&rt)?;
    ask_taken(&rt, 100)?;
    ask_taken(&rt, 99)?;
    histories(&rt)?;
    other_bounds(&rt)?;
    tables(&rt)?;
    ask_one(&rt, 2, 3, 5)?;
    ask_one(&rt, 0, 2, 0)?;
    long_tables(&rt)
}
