// The run files that the format and its readings name, good and bad: one line for each, with what the reader answers, and whether the writer
// gives the same bytes back.
#![tactic(auto)]

use limits::{Input, Table};
use numerals::Page;
use reader::Lent;
use runfile::Sizes;
use std::io;

// Writes what was read, and says whether the written bytes are the text.
fn write_back(rt: &impl Print, text: &[u8], input: &Input) -> io::Result<()> {
    let mut out = [0u8; 65536];
    let Ok(n) = writer::write_run(input, &mut out) else {
        return print!(rt; ", not written");
    };
    if out.get(..n) == Some(text) {
        print!(rt; ", written back the same")?;
    }
    Ok(())
}

// What a text gives, read into the lent lists.
fn answer(rt: &impl Print, text: &[u8], mut lent: Lent) -> io::Result<()> {
    let sizes = match reader::read_run(text, &mut lent) {
        Ok(sizes) => sizes,
        Err(refusal) => {
            return print!(rt; "refused {} {}", refusal.number(), refusal.detail());
        }
    };
    let Sizes {
        threads,
        slots,
        operations,
        steps,
    } = sizes;
    print!(rt; "run {threads} {slots} {operations} {steps}")?;
    let Lent {
        thread,
        kind,
        sample,
        schedule,
    } = lent;
    let Some(thread) = thread.get(..operations) else {
        return Ok(());
    };
    let Some(kind) = kind.get(..operations) else {
        return Ok(());
    };
    let Some(sample) = sample.get(..operations) else {
        return Ok(());
    };
    let Some(schedule) = schedule.get(..steps) else {
        return Ok(());
    };
    let table = Table {
        thread,
        kind,
        sample,
    };
    let input = Input {
        threads: threads as usize,
        slots: slots as usize,
        table,
        schedule,
    };
    write_back(rt, text, &input)
}

// What a text gives, with lists that have room for the longest run.
fn show(rt: &impl Print, name: &str, text: &[u8]) -> io::Result<()> {
    print!(rt; "{name}: ")?;
    let lent = Lent {
        thread: &mut [9; 128],
        kind: &mut [9; 128],
        sample: &mut [9; 128],
        schedule: &mut [9; 4096],
    };
    answer(rt, text, lent)?;
    println!(rt; "")
}

// The same with lent lists that are too short by one.
fn show_short(rt: &impl Print, name: &str, text: &[u8]) -> io::Result<()> {
    print!(rt; "{name}: ")?;
    let mut thread = [9; 3];
    let lent = Lent {
        thread: &mut thread,
        kind: &mut [9; 3],
        sample: &mut [9; 2],
        schedule: &mut [9; 13],
    };
    answer(rt, text, lent)?;
    if thread == [9; 3] {
        print!(rt; ", nothing stored")?;
    }
    println!(rt; "")
}

// A text with a line in it that stands there this often.
fn show_long(
    rt: &impl Print,
    name: &str,
    before: &[u8],
    line: &[u8],
    times: usize,
    after: &[u8],
) -> io::Result<()> {
    let mut text = [0u8; 66000];
    let mut page = Page::new(&mut text);
    page.put_bytes(before);
    for _ in 0..times {
        page.put_bytes(line);
    }
    page.put_bytes(after);
    let n = page.count();
    match text.get(..n) {
        Some(text) => show(rt, name, text),
        None => println!(rt; "{name}: no room"),
    }
}

fn show_ends(rt: &impl Print) -> io::Result<()> {
    show(rt, "empty text", b"")?;
    show(rt, "one byte", b"t")?;
    show(rt, "one line feed", b"\n")?;
    show(rt, "threads alone", b"threads\t2\n")?;
    show(rt, "two lines", b"threads\t2\nslots\t2\n")?;
    show(rt, "no line feed at the end", b"threads\t2\nslots\t2")?;
    show(
        rt,
        "no line feed after a step",
        b"threads\t2\nslots\t2\nstep\t0\nstep\t1",
    )?;
    show(rt, "carriage returns", b"threads\t2\r\nslots\t2\r\n")
}

fn show_blanks(rt: &impl Print) -> io::Result<()> {
    show(rt, "blank line in front", b"\nthreads\t2\nslots\t2\n")?;
    show(rt, "blank line between", b"threads\t2\n\nslots\t2\n")?;
    show(rt, "blank line after", b"threads\t2\nslots\t2\n\n")?;
    show(
        rt,
        "blank line after steps",
        b"threads\t2\nslots\t2\nstep\t0\n\n",
    )?;
    show(rt, "blank before a word", b" threads\t2\nslots\t2\n")?;
    show(rt, "blank for a tab", b"threads 2\nslots\t2\n")
}

fn show_tabs(rt: &impl Print) -> io::Result<()> {
    show(rt, "two tabs", b"threads\t\t2\nslots\t2\n")?;
    show(rt, "trailing tab", b"threads\t2\t\nslots\t2\n")?;
    show(rt, "tab in front", b"\tthreads\t2\nslots\t2\n")?;
    show(rt, "no number", b"threads\nslots\t2\n")?;
    show(rt, "empty number", b"threads\t\nslots\t2\n")?;
    show(
        rt,
        "take with a sample",
        b"threads\t2\nslots\t2\ntake\t0\t0\n",
    )?;
    show(
        rt,
        "put without a sample",
        b"threads\t2\nslots\t2\nput\t0\n",
    )?;
    show(
        rt,
        "put with a third field",
        b"threads\t2\nslots\t2\nput\t0\t1\t2\n",
    )
}

fn show_digits(rt: &impl Print) -> io::Result<()> {
    show(rt, "plus", b"threads\t+1\nslots\t2\n")?;
    show(rt, "leading zero", b"threads\t01\nslots\t2\n")?;
    show(rt, "two zeros", b"threads\t00\nslots\t2\n")?;
    show(rt, "letter in a number", b"threads\t2a\nslots\t2\n")?;
    show(
        rt,
        "minus before a thread",
        b"threads\t2\nslots\t2\ntake\t-1\n",
    )?;
    show(
        rt,
        "minus before a step",
        b"threads\t2\nslots\t2\nstep\t-1\n",
    )?;
    show(
        rt,
        "minus zero for a thread",
        b"threads\t2\nslots\t2\nstep\t-0\n",
    )?;
    show(rt, "255 threads", b"threads\t255\nslots\t2\n")?;
    show(rt, "256 threads", b"threads\t256\nslots\t2\n")?;
    show(rt, "255 slots", b"threads\t2\nslots\t255\n")?;
    show(rt, "256 slots", b"threads\t2\nslots\t256\n")
}

fn show_samples(rt: &impl Print) -> io::Result<()> {
    show(
        rt,
        "largest sample",
        b"threads\t2\nslots\t2\nput\t0\t2147483647\n",
    )?;
    show(
        rt,
        "past the largest",
        b"threads\t2\nslots\t2\nput\t0\t2147483648\n",
    )?;
    show(
        rt,
        "least sample",
        b"threads\t2\nslots\t2\nput\t0\t-2147483648\n",
    )?;
    show(
        rt,
        "past the least",
        b"threads\t2\nslots\t2\nput\t0\t-2147483649\n",
    )?;
    show(rt, "minus zero", b"threads\t2\nslots\t2\nput\t0\t-0\n")?;
    show(rt, "sample zero", b"threads\t2\nslots\t2\nput\t0\t0\n")?;
    show(rt, "sample plus", b"threads\t2\nslots\t2\nput\t0\t+5\n")?;
    show(
        rt,
        "sample leading zero",
        b"threads\t2\nslots\t2\nput\t0\t05\n",
    )?;
    show(
        rt,
        "sample minus leading zero",
        b"threads\t2\nslots\t2\nput\t0\t-05\n",
    )?;
    show(rt, "minus alone", b"threads\t2\nslots\t2\nput\t0\t-\n")?;
    show(rt, "two minuses", b"threads\t2\nslots\t2\nput\t0\t--5\n")
}

fn show_order(rt: &impl Print) -> io::Result<()> {
    show(
        rt,
        "operation after a step",
        b"threads\t2\nslots\t2\ntake\t0\nstep\t0\ntake\t0\n",
    )?;
    show(rt, "second threads", b"threads\t2\nslots\t2\nthreads\t2\n")?;
    show(
        rt,
        "second threads after a step",
        b"threads\t2\nslots\t2\nstep\t0\nthreads\t2\n",
    )?;
    show(rt, "second slots", b"threads\t2\nslots\t2\nslots\t2\n")?;
    show(rt, "slots first", b"slots\t2\nthreads\t2\n")?;
    show(rt, "another word", b"threads\t2\nslots\t2\nputs\t0\t1\n")?;
    show(rt, "word in capitals", b"threads\t2\nslots\t2\nStep\t0\n")?;
    show(rt, "a byte 0", b"threads\t2\nslots\t2\nstep\t0\x00\n")?;
    show(rt, "byte 0 for a digit", b"threads\t\x00\nslots\t2\n")?;
    show(rt, "byte 255", b"threads\t2\nslots\t2\nstep\t\xff\n")?;
    show(
        rt,
        "letters beyond ASCII",
        b"threads\t2\nslots\t2\nst\xc3\xa9p\t0\n",
    )
}

fn show_faults(rt: &impl Print) -> io::Result<()> {
    show(rt, "no threads", b"threads\t0\nslots\t2\n")?;
    show(rt, "no slots", b"threads\t2\nslots\t0\n")?;
    show(rt, "16 threads", b"threads\t16\nslots\t64\n")?;
    show(rt, "17 threads", b"threads\t17\nslots\t64\n")?;
    show(rt, "65 slots", b"threads\t16\nslots\t65\n")?;
    show(rt, "no threads and no slots", b"threads\t0\nslots\t0\n")?;
    show(
        rt,
        "a bad last line and no threads",
        b"threads\t0\nslots\t2\nstep\tx\n",
    )?;
    show(
        rt,
        "a thread too high",
        b"threads\t2\nslots\t2\ntake\t0\ntake\t2\ntake\t3\n",
    )?;
    show(
        rt,
        "more puts than slots",
        b"threads\t2\nslots\t1\nput\t0\t1\nput\t1\t2\nstep\t9\n",
    )?;
    show(
        rt,
        "a step too high",
        b"threads\t2\nslots\t2\nstep\t0\nstep\t1\nstep\t2\nstep\t255\n",
    )?;
    show(
        rt,
        "a thread too high and a step too high",
        b"threads\t2\nslots\t2\ntake\t2\nstep\t2\n",
    )?;
    show(
        rt,
        "run A",
        b"threads\t3\nslots\t2\nput\t0\t100\nput\t1\t0\ntake\t2\nstep\t0\nstep\t0\nstep\t1\nstep\t1\nstep\t1\nstep\t1\nstep\t2\nstep\t2\nstep\t2\nstep\t0\nstep\t2\nstep\t2\nstep\t0\n",
    )
}

fn show_lengths(rt: &impl Print) -> io::Result<()> {
    show_long(
        rt,
        "128 operations",
        b"threads\t2\nslots\t2\n",
        b"take\t0\n",
        128,
        b"",
    )?;
    show_long(
        rt,
        "129 operations",
        b"threads\t2\nslots\t2\n",
        b"take\t0\n",
        129,
        b"",
    )?;
    show_long(
        rt,
        "4096 steps",
        b"threads\t2\nslots\t2\n",
        b"step\t1\n",
        4096,
        b"",
    )?;
    show_long(
        rt,
        "4097 steps",
        b"threads\t2\nslots\t2\n",
        b"step\t1\n",
        4097,
        b"",
    )?;
    show_long(
        rt,
        "129 operations and a bad last line",
        b"threads\t2\nslots\t2\n",
        b"take\t0\n",
        129,
        b"step\t01\n",
    )?;
    show_long(
        rt,
        "129 operations and 17 threads",
        b"threads\t17\nslots\t2\n",
        b"take\t0\n",
        129,
        b"",
    )
}

fn show_bytes(rt: &impl Print) -> io::Result<()> {
    show_long(
        rt,
        "65536 bytes",
        b"threads\t2\nslots\t2\n",
        b"step\t0\n",
        9354,
        b"step\t10\nstep\t10\nstep\t10\nstep\t10\nstep\t10\n",
    )?;
    show_long(
        rt,
        "65537 bytes",
        b"threads\t2\nslots\t2\n",
        b"step\t0\n",
        9354,
        b"step\t10\nstep\t10\nstep\t10\nstep\t10\nstep\t10\ns",
    )?;
    show_long(
        rt,
        "65537 bytes and a bad first line",
        b"threads\tx\nslots\t2\n",
        b"step\t0\n",
        9354,
        b"step\t10\nstep\t10\nstep\t10\nstep\t10\nstep\t10\ns",
    )?;
    show_long(
        rt,
        "a thousand digits",
        b"threads\t",
        b"1",
        1000,
        b"\nslots\t2\n",
    )?;
    show_long(
        rt,
        "a sample of a thousand digits",
        b"threads\t2\nslots\t2\nput\t0\t-",
        b"9",
        1000,
        b"\n",
    )?;
    show_long(
        rt,
        "a thousand zeros",
        b"threads\t2\nslots\t2\nstep\t",
        b"0",
        1000,
        b"\n",
    )
}

fn show_room(rt: &impl Print) -> io::Result<()> {
    show_short(
        rt,
        "run A with too little room",
        b"threads\t3\nslots\t2\nput\t0\t100\nput\t1\t0\ntake\t2\nstep\t0\nstep\t0\nstep\t1\nstep\t1\nstep\t1\nstep\t1\nstep\t2\nstep\t2\nstep\t2\nstep\t0\nstep\t2\nstep\t2\nstep\t0\n",
    )
}

fn main(rt: HostRuntime) -> io::Result<()> {
    show_ends(&rt)?;
    show_blanks(&rt)?;
    show_tabs(&rt)?;
    show_digits(&rt)?;
    show_samples(&rt)?;
    show_order(&rt)?;
    show_faults(&rt)?;
    show_lengths(&rt)?;
    show_bytes(&rt)?;
    show_room(&rt)
}
