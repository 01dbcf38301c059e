// The writer of run files: from a run's input to the text.
#![tactic(auto)]

ghost use Rattle.std.specs.Prelude.{◌≡◌, [], ◌∷◌, ◌++◌, length};
ghost use Rattle.limits.specs.Inputs.{input_in};
ghost use Rattle.limits.specs.Parts.{IsEven};
ghost use Rattle.numerals.specs.Decimal.{decimal};
ghost use Rattle.numerals.specs.Places.{Wrote};
ghost use Rattle.runfile.specs.RunText.{Fitting};
ghost use Rattle.runfile.specs.Spelling.{put_line, ended, op_line, ops_text, steps_text, spelled};
ghost use Rattle.runfile.specs.Answers.{WriteSays};

use limits::{Input, Kind, Refusal, Table};
use numerals::Page;

// Puts the line of the words w and the number n.
fn write_pair(page: &mut Page, w: &[u8], n: usize)
    ensures { Wrote page.old (w.now ++ (decimal n ++ (10 ∷ []))) page.new }
{
    page.put_bytes(w);
    page.put_number(n);
    page.put_byte(b'\n');
}

// Puts the line of a put.
fn write_put(page: &mut Page, t: usize, x: i32)
    ensures { Wrote page.old (ended (put_line t x) []) page.new }
{
    page.put_bytes(b"put\t");
    page.put_number(t);
    page.put_byte(b'\t');
    page.put_sample(x);
    page.put_byte(b'\n');
}

// Puts the line of an operation.
fn write_op(page: &mut Page, t: u8, k: u8, x: i32)
    ensures { Wrote page.old (ended (op_line t k x) []) page.new }
{
    match Kind::of(k) {
        Kind::Put => write_put(page, t as usize, x),
        Kind::Take => write_pair(page, b"take\t", t as usize),
    }
}

// Puts the lines of the operations.
fn write_ops(page: &mut Page, table: &Table)
    requires { IsEven table.now }
    ensures put { Wrote page.old (ops_text table.now.thread.now table.now.kind.now table.now.sample.now) page.new }
    ensures fitting { Fitting table.now.sample.now }
{
    for o in 0..table.thread.len() {
        write_op(page, table.thread[o], table.kind[o], table.sample[o]);
    }
}

// Puts the lines of the schedule.
fn write_steps(page: &mut Page, schedule: &[u8])
    ensures { Wrote page.old (steps_text schedule.now) page.new }
{
    for thread in schedule {
        write_pair(page, b"step\t", *thread as usize);
    }
}

// Puts the text of a run.
fn write_text(page: &mut Page, input: &Input)
    requires { IsEven input.now.table }
    ensures put { Wrote page.old (spelled input.now.threads input.now.slots input.now.table.thread.now input.now.table.kind.now input.now.table.sample.now input.now.schedule.now) page.new }
    ensures fitting { Fitting input.now.table.sample.now }
{
    write_pair(page, b"threads\t", input.threads);
    write_pair(page, b"slots\t", input.slots);
    write_ops(page, &input.table);
    write_steps(page, input.schedule);
}

// Writes a run file into the first bytes of the lent text. A refusal changes no byte. The bytes are counted first, on a page with no room.
pub fn write_run(input: &Input, text: &mut [u8]) -> Result<usize, Refusal>
    ensures { WriteSays (input_in input.now) text.old result text.new }
{
    input.check()?;
    let mut counted = Page::new(&mut []);
    write_text(&mut counted, input);
    if text.len() < counted.count() {
        return Err(Refusal::Room);
    }
    let mut page = Page::new(text);
    write_text(&mut page, input);
    Ok(page.count())
}
