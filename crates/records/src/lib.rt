// A run whose caller lends a list of thread records: the run's core, then the records of the threads.
#![tactic(auto)]

ghost use Rattle.std.specs.Prelude.{◌≡◌, ◌≤◌, ◌++◌, length, take, drop};
ghost use Rattle.limits.specs.Inputs.{input_in};
ghost use Rattle.run.specs.Lent.{SameLists, lists_in};
ghost use Rattle.records.specs.Records.{RecordsSay};

use limits::{Input, Refusal};
use machine::ThreadRecord;
use run::{Lent, Summary};

// The first n of the core's records, into the lent list.
fn put_records(records: &mut [ThreadRecord], shown: &[ThreadRecord; 16], n: usize)
    requires { (n ≤ 16) × (n ≤ length records.old) }
    ensures { records.new ≡ take n shown.now ++ drop n records.old }
{
    records[..n].copy_from_slice(&shown[..n]);
}

// The run: five lent lists of numbers, and one of thread records.
pub fn run(input: &Input, lent: &mut Lent, records: &mut [ThreadRecord]) -> Result<Summary, Refusal>
    ensures same_lists { SameLists lent.old lent.new }
    ensures says { RecordsSay (input_in input.now) (lists_in lent.old) (lists_in lent.new) records.old records.new result }
{
    let ran = run::run_core(input, lent, records.len())?;
    put_records(records, &ran.records, input.threads);
    Ok(ran.summary)
}
