// The reader of run files: from a text to the four lists of a run's input.
#![tactic(auto)]

ghost use Rattle.std.specs.Prelude.{◌≡◌, ◌≤◌, length, OnOk};
ghost use Rattle.limits.specs.Lists.{over};
ghost use Rattle.runfile.specs.Answers.{ReadSays};
ghost use Rattle.reader.specs.Lent.{SameLists};
ghost use Rattle.reader.specs.Twins.{file_of, fit_in, HasRoom, Settles};

mod fields;
mod whole;

use limits::{Input, Refusal, Table};
use runfile::Sizes;

// The lists that a reader's caller lends: the operations' threads, kinds and samples, and the schedule.
#[derive(Drop)]
pub struct Lent<'a> {
    pub thread: &'a mut [u8],
    pub kind: &'a mut [u8],
    pub sample: &'a mut [i32],
    pub schedule: &'a mut [u8],
}

// The entries of w in place of the first ones of out.
fn fill<T: Copy>(out: &mut [T], w: &[T])
    requires { length w.now ≤ length out.old }
    ensures { out.new ≡ over w.now out.old }
{
    out[..w.len()].copy_from_slice(w);
}

impl Lent<'_> {
    // Refusals 1 to 9 of an input that a text holds.
    #[tactic(auto, using(runfile::proofs::FitLaws::room_tests))]
    fn check(&self, input: &Input) -> Result<(), Refusal>
        ensures value { result ≡ fit_in self.now (file_of input.now) }
        ensures room { OnOk result (HasRoom self.now input.now) }
    {
        input.check()?;
        if self.thread.len() < input.table.thread.len()
            || self.kind.len() < input.table.kind.len()
            || self.sample.len() < input.table.sample.len()
            || self.schedule.len() < input.schedule.len()
        {
            return Err(Refusal::Room);
        }
        Ok(())
    }

    // The answer to an input that a text holds, and its lists into the lent ones.
    #[tactic(auto, using(crate::proofs::AnswerLaws::settle_run, crate::proofs::AnswerLaws::settle_refused))]
    fn settle(&mut self, input: &Input) -> Result<(), Refusal>
        ensures same_lists { SameLists self.old self.new }
        ensures says { Settles (file_of input.now) self.old self.new result }
    {
        self.check(input)?;
        fill(self.thread, input.table.thread);
        fill(self.kind, input.table.kind);
        fill(self.sample, input.table.sample);
        fill(self.schedule, input.schedule);
        Ok(())
    }
}

// Reads a run file: its operations and its schedule into the first entries of the lent lists. A refusal changes no entry.
// One operation and one entry more than a run may have are kept, so that too many are seen.
#[tactic(auto, using(crate::proofs::AnswerLaws::fit_long))]
pub fn read_run(text: &[u8], lent: &mut Lent) -> Result<Sizes, Refusal>
    ensures same_lists { SameLists lent.old lent.new }
    ensures says { ReadSays text.now lent.old.thread.now lent.old.kind.now lent.old.sample.now lent.old.schedule.now result lent.new.thread.now lent.new.kind.now lent.new.sample.now lent.new.schedule.now }
{
    if 65536 < text.len() {
        return Err(Refusal::Text);
    }
    let mut held = Lent {
        thread: &mut [0; 129],
        kind: &mut [0; 129],
        sample: &mut [0; 129],
        schedule: &mut [0; 4097],
    };
    let sizes = whole::parse(text, &mut held)?;
    let Lent {
        thread,
        kind,
        sample,
        schedule,
    } = held;
    let operations = sizes.operations.min(129);
    let steps = sizes.steps.min(4097);
    let input = Input {
        threads: sizes.threads as usize,
        slots: sizes.slots as usize,
        table: Table {
            thread: &thread[..operations],
            kind: &kind[..operations],
            sample: &sample[..operations],
        },
        schedule: &schedule[..steps],
    };
    lent.settle(&input)?;
    Ok(Sizes {
        operations,
        steps,
        ..sizes
    })
}
