// Run files and listings for callers in C and Rust: read into lent lists, and written into a lent text.
ghost use Rattle.std.specs.Prelude.{◌≡◌};
ghost use Rattle.limits.specs.Operations.{input_of};
ghost use Rattle.outside.specs.Texts.{read_numbers, ReadTells, WriteTells, ListTells};
ghost use Rattle.outside.specs.Told.{text_told};

use limits::Refusal;
use reader::Lent;
use runfile::Sizes;

// A reading. `refusal` is 0 for a text that is accepted; otherwise it is the document's number, `detail` its detail, and all else 0.
#[repr(C)]
#[derive(Clone, Copy, Debug, Default)]
pub struct ReadAnswer {
    pub refusal: usize,
    pub detail: usize,
    pub threads: usize,
    pub slots: usize,
    pub operations: usize,
    pub steps: usize,
}

// A text made. `refusal` is 0 for an input that is accepted; otherwise it is the document's number, `detail` its detail, and `bytes` 0.
#[repr(C)]
#[derive(Clone, Copy, Debug, Default)]
pub struct TextAnswer {
    pub refusal: usize,
    pub detail: usize,
    pub bytes: usize,
}

impl From<Result<Sizes, Refusal>> for ReadAnswer {
    ghost from_gives = { λ q a. a ≡ read_numbers q };

    fn from(read: Result<Sizes, Refusal>) -> ReadAnswer {
        match read {
            Ok(sizes) => ReadAnswer {
                threads: sizes.threads.into(),
                slots: sizes.slots.into(),
                operations: sizes.operations,
                steps: sizes.steps,
                ..ReadAnswer::default()
            },
            Err(r) => ReadAnswer {
                refusal: r.number().into(),
                detail: r.detail(),
                ..ReadAnswer::default()
            },
        }
    }
}

impl From<Result<usize, Refusal>> for TextAnswer {
    ghost from_gives = { λ q a. a ≡ text_told q };

    fn from(made: Result<usize, Refusal>) -> TextAnswer {
        match made {
            Ok(bytes) => TextAnswer {
                bytes,
                ..TextAnswer::default()
            },
            Err(r) => TextAnswer {
                refusal: r.number().into(),
                detail: r.detail(),
                ..TextAnswer::default()
            },
        }
    }
}

// Reads a run file into the lent lists.
#[unsafe(no_mangle)]
pub extern "C" fn pollenloom_read(
    text: &[u8],
    thread: &mut [u8],
    kind: &mut [u8],
    sample: &mut [i32],
    schedule: &mut [u8],
) -> ReadAnswer
    ensures { ReadTells text.now thread.old kind.old sample.old schedule.old result thread.new kind.new sample.new schedule.new }
{
    let mut lent = Lent {
        thread,
        kind,
        sample,
        schedule,
    };
    reader::read_run(text, &mut lent).into()
}

// Writes the run file of a run's input into the lent text.
#[unsafe(no_mangle)]
pub extern "C" fn pollenloom_write(
    threads: usize,
    slots: usize,
    thread: &[u8],
    kind: &[u8],
    sample: &[i32],
    schedule: &[u8],
    text: &mut [u8],
) -> TextAnswer
    ensures { WriteTells (input_of threads slots thread.now kind.now sample.now schedule.now) text.old result text.new }
{
    let input = crate::lent_input(threads, slots, thread, kind, sample, schedule);
    writer::write_run(&input, text).into()
}

// Writes the listing of a run into the lent text; 12,288 bytes have room for every listing.
#[unsafe(no_mangle)]
pub extern "C" fn pollenloom_list(
    threads: usize,
    slots: usize,
    thread: &[u8],
    kind: &[u8],
    sample: &[i32],
    schedule: &[u8],
    text: &mut [u8],
) -> TextAnswer
    ensures { ListTells (input_of threads slots thread.now kind.now sample.now schedule.now) text.old result text.new }
{
    let input = crate::lent_input(threads, slots, thread, kind, sample, schedule);
    listing::list_run(&input, text).into()
}
