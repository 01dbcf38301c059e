// The library for callers in C and Rust: numbers and slices of numbers only. Nothing is asked of a caller but valid slices
// that no one else writes to during the call; every input has its answer, and a refused call writes nothing.
#![tactic(auto)]

ghost use Rattle.std.specs.Prelude.{◌≡◌};
ghost use Rattle.judge.specs.Judge.{judged};
ghost use Rattle.limits.specs.Inputs.{input_in};
ghost use Rattle.limits.specs.Operations.{input_of};
ghost use Rattle.run.specs.Run.{lists_of};
ghost use Rattle.outside.specs.Outside.{RunTells, judge_numbers};
ghost use Rattle.outside.specs.Told.{outcome_numbers};

mod records;
pub mod texts;

use judge::History;
use limits::{Input, Refusal, Table};
use linear::Verdict;
use run::{Lent, Summary};

// A run's answer. `refusal` is 0 for an accepted run; otherwise it is the document's number, `detail` its detail, and all else 0.
#[repr(C)]
#[derive(Clone, Copy, Debug, Default)]
pub struct RunAnswer {
    pub refusal: usize,
    pub detail: usize,
    pub events: usize,
    pub order: usize,
    pub back: usize,
    pub steps: usize,
    pub idle: usize,
    pub stores: usize,
    pub swaps: usize,
    pub finds: usize,
    pub fruitless: usize,
}

// The judge's answer. `refusal` is 0 where there is a verdict; otherwise it is the document's number, `detail` its detail, and `verdict` 0.
#[repr(C)]
#[derive(Clone, Copy, Debug, Default)]
pub struct JudgeAnswer {
    pub refusal: usize,
    pub detail: usize,
    pub verdict: usize,
}

impl From<Result<Summary, Refusal>> for RunAnswer {
    ghost from_gives = { λ o a. a ≡ outcome_numbers o };

    fn from(outcome: Result<Summary, Refusal>) -> RunAnswer {
        match outcome {
            Ok(s) => RunAnswer {
                events: s.events,
                order: s.order,
                back: s.back,
                steps: s.steps,
                idle: s.idle,
                stores: s.stores,
                swaps: s.swaps,
                finds: s.finds,
                fruitless: s.fruitless,
                ..RunAnswer::default()
            },
            Err(r) => RunAnswer {
                refusal: r.number().into(),
                detail: r.detail(),
                ..RunAnswer::default()
            },
        }
    }
}

impl From<Result<Verdict, Refusal>> for JudgeAnswer {
    ghost from_gives = { λ q a. a ≡ judge_numbers q };

    fn from(judged: Result<Verdict, Refusal>) -> JudgeAnswer {
        match judged {
            Ok(v) => JudgeAnswer {
                verdict: v.number().into(),
                ..JudgeAnswer::default()
            },
            Err(r) => JudgeAnswer {
                refusal: r.number().into(),
                detail: r.detail(),
                ..JudgeAnswer::default()
            },
        }
    }
}

// A run's input, of numbers and lists that a caller lends.
pub(crate) fn lent_input<'a>(
    threads: usize,
    slots: usize,
    thread: &'a [u8],
    kind: &'a [u8],
    sample: &'a [i32],
    schedule: &'a [u8],
) -> Input<'a>
    ensures { input_in result ≡ input_of threads slots thread.now kind.now sample.now schedule.now }
{
    Input {
        threads,
        slots,
        table: Table {
            thread,
            kind,
            sample,
        },
        schedule,
    }
}

// The run, with the thread records as three lists: phase codes, phase numbers, ends of passes.
#[unsafe(no_mangle)]
pub extern "C" fn pollenloom_run(
    threads: usize,
    slots: usize,
    thread: &[u8],
    kind: &[u8],
    sample: &[i32],
    schedule: &[u8],
    codes: &mut [u16],
    values: &mut [i32],
    order: &mut [u8],
    marks: &mut [u8],
    held: &mut [i32],
    phases: &mut [u8],
    numbers: &mut [i32],
    ends: &mut [u8],
) -> RunAnswer
    ensures { RunTells (input_of threads slots thread.now kind.now sample.now schedule.now)
        (lists_of codes.old values.old order.old marks.old held.old)
        phases.old numbers.old ends.old
        (lists_of codes.new values.new order.new marks.new held.new)
        phases.new numbers.new ends.new result }
{
    let input = lent_input(threads, slots, thread, kind, sample, schedule);
    let mut lent = Lent {
        codes,
        values,
        order,
        marks,
        held,
    };
    let room = phases.len().min(numbers.len()).min(ends.len());
    match run::run_core(&input, &mut lent, room) {
        Ok(ran) => {
            records::show_records(&ran.records[..threads], phases, numbers, ends);
            RunAnswer::from(Ok(ran.summary))
        }
        Err(refusal) => RunAnswer::from(Err(refusal)),
    }
}

// The judge's verdict on `order`, for the history that `codes` and `samples` give.
#[unsafe(no_mangle)]
pub extern "C" fn pollenloom_judge(
    threads: usize,
    thread: &[u8],
    kind: &[u8],
    sample: &[i32],
    codes: &[u16],
    samples: &[i32],
    order: &[u8],
) -> JudgeAnswer
    ensures { result ≡ judge_numbers (judged threads thread.now kind.now sample.now codes.now samples.now order.now) }
{
    let table = Table {
        thread,
        kind,
        sample,
    };
    let history = History { codes, samples };
    judge::judge(threads, &table, &history, order).into()
}
