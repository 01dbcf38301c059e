// The runs A to H and J of document 01, 'Runs worked by hand': each one's name, and then its listing or the line of its refusal.
#![tactic(auto)]

use limits::{Input, Table};
use std::io::{self, Write};

// The listing of a run after its name, or the line of its refusal.
fn show(rt: &impl Print, name: &str, input: &Input) -> io::Result<()> {
    println!(rt; "{name}")?;
    let mut text = [0u8; listing::ROOM];
    let listed = match listing::list_run(input, &mut text) {
        Ok(n) => Ok(n),
        Err(refusal) => listing::list_refusal(refusal, &mut text),
    };
    match listed.ok().and_then(|n| text.get(..n)) {
        Some(bytes) => io::writer(rt).write_all(bytes),
        None => println!(rt; "no room"),
    }
}

// Two puts and a take, each on a thread of its own.
fn show_three(rt: &impl Print, name: &str, sample: &[i32; 3], schedule: &[u8]) -> io::Result<()> {
    let input = Input {
        threads: 3,
        slots: 2,
        table: Table {
            thread: b"\x00\x01\x02",
            kind: b"\x01\x01\x02",
            sample,
        },
        schedule,
    };
    show(rt, name, &input)
}

// No operations.
fn show_none(
    rt: &impl Print,
    name: &str,
    threads: usize,
    slots: usize,
    schedule: &[u8],
) -> io::Result<()> {
    let input = Input {
        threads,
        slots,
        table: Table {
            thread: &[],
            kind: &[],
            sample: &[],
        },
        schedule,
    };
    show(rt, name, &input)
}

// Operations of one thread alone.
fn show_one(
    rt: &impl Print,
    name: &str,
    slots: usize,
    kind: &[u8],
    sample: &[i32],
    schedule: &[u8],
) -> io::Result<()> {
    let Some(thread) = [0; 2].get(..kind.len()) else {
        return Ok(());
    };
    let input = Input {
        threads: 1,
        slots,
        table: Table {
            thread,
            kind,
            sample,
        },
        schedule,
    };
    show(rt, name, &input)
}

fn main(rt: HostRuntime) -> io::Result<()> {
    show_three(
        &rt,
        "run A",
        &[100, 0, 0],
        &[0, 0, 1, 1, 1, 1, 2, 2, 2, 0, 2, 2, 0],
    )?;
    show_three(&rt, "run B", &[5, 6, 0], &[0, 0, 1, 1, 2, 2, 2, 0, 1, 2, 2])?;
    show_none(&rt, "run C", 1, 1, &[])?;
    show_none(&rt, "run D", 1, 1, &[0; 3])?;
    show_one(&rt, "run E", 1, &[1, 2], &[7, 0], &[0; 8])?;
    show_one(&rt, "run F", 1, &[1, 2], &[7, 0], &[0; 7])?;
    show_one(&rt, "run G", 1, &[1, 2], &[7, 0], &[0; 2])?;
    show_one(&rt, "run H", 1, &[2], &[0], &[0; 3])?;
    show_none(&rt, "run J: no threads, no slots", 0, 0, &[])?;
    show_none(&rt, "run J: 16 threads", 16, 1, &[])?;
    show_none(&rt, "run J: 17 threads", 17, 1, &[])?;
    show_one(&rt, "run J: 2 puts, 1 slot", 1, &[1, 1], &[0, 0], &[])?;
    show_one(&rt, "run J: 2 puts, 2 slots", 2, &[1, 1], &[0, 0], &[])?;
    show_none(&rt, "run J: 4096 entries", 1, 1, &[0; 4096])?;
    show_none(&rt, "run J: 4097 entries", 1, 1, &[0; 4097])
}
