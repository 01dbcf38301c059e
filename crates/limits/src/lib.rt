// Operation tables, the numbers that bound a run, and the refusals that need nothing but a run's input.
#![tactic(auto)]

ghost use Rattle.std.specs.Prelude.{◌≡◌, ◌≤◌, ℕ, ℤ, pos, length, get_or, count_by, position, ◌==◌};
ghost use Rattle.limits.specs.Lists.{lowest};
ghost use Rattle.limits.specs.Operations.{puts_in, kind_of};
ghost use Rattle.limits.specs.Inputs.{input_in};
ghost use Rattle.limits.specs.Refusals.{refusal_told, within, together, unfit, unfit_at, input_refusal};
ghost use Rattle.limits.specs.Parts.{IsEven, kind_number, stray_at, number_refusal, operations_refusal, table_refusal, schedule_refusal};

// Why an input is refused; a place where the document asks for one.
#[derive(Clone, Copy)]
pub enum Refusal {
    Threads,
    Slots,
    Lengths,
    Operations,
    Operation(usize),
    Puts,
    Schedule,
    Entry(usize),
    Room,
    Event(usize),
    Line(usize),
    Text,
}

impl Refusal {
    // The document's number of a refusal.
    pub fn number(self) -> u8
        ensures { result ≡ (refusal_told self).0 }
    {
        match self {
            Refusal::Threads => 1,
            Refusal::Slots => 2,
            Refusal::Lengths => 3,
            Refusal::Operations => 4,
            Refusal::Operation(_) => 5,
            Refusal::Puts => 6,
            Refusal::Schedule => 7,
            Refusal::Entry(_) => 8,
            Refusal::Room => 9,
            Refusal::Event(_) => 10,
            Refusal::Line(_) => 11,
            Refusal::Text => 12,
        }
    }

    // The document's detail of a refusal: its place, 0 where it has none.
    pub fn detail(self) -> usize
        ensures { result ≡ (refusal_told self).1 }
    {
        match self {
            Refusal::Operation(place) | Refusal::Entry(place) => place,
            Refusal::Event(place) | Refusal::Line(place) => place,
            _ => 0,
        }
    }
}

// What an operation does.
#[derive(Clone, Copy)]
pub enum Kind {
    Put,
    Take,
}

impl Kind {
    // The kind that a number in a list of kinds stands for: 1 is a put. A table that is not refused has no other number but 2, a take.
    pub fn of(number: u8) -> Kind
        ensures { result ≡ kind_of number }
    {
        if number == 1 { Kind::Put } else { Kind::Take }
    }

    // The number that stands for it in a list of kinds.
    pub fn number(self) -> u8
        ensures { result ≡ kind_number self }
    {
        match self {
            Kind::Put => 1,
            Kind::Take => 2,
        }
    }
}

// A table of operations: of each, numbered from 0, its thread, its kind (1 for a put, 2 for a take) and its sample.
// The kinds are numbers, as in the lists that C hands over; `Kind` says what they stand for.
#[derive(Clone, Copy)]
pub struct Table<'a> {
    pub thread: &'a [u8],
    pub kind: &'a [u8],
    pub sample: &'a [i32],
}

// A run's input.
#[derive(Clone, Copy)]
pub struct Input<'a> {
    pub threads: usize,
    pub slots: usize,
    pub table: Table<'a>,
    pub schedule: &'a [u8],
}

// A number from 1 to the most that is allowed, or else this refusal.
fn check_number(n: usize, most: usize, refusal: Refusal) -> Result<(), Refusal>
    ensures { result ≡ number_refusal n most refusal }
{
    if (1..=most).contains(&n) {
        Ok(())
    } else {
        Err(refusal)
    }
}

// Whether an operation is one that refusal 5 names: its thread is too high, its kind is neither put nor take, or it is a take with a sample.
fn is_unfit(threads: usize, thread: u8, kind: u8, sample: i32) -> bool
    ensures { result ≡ unfit threads thread kind sample }
{
    threads <= thread as usize
        || match kind {
            1 => false,
            2 => sample != 0,
            _ => true,
        }
}

impl Table<'_> {
    // Whether the three lists are of one length.
    fn is_together(&self) -> bool
        ensures { result ≡ together self.now.thread.now self.now.kind.now self.now.sample.now }
    {
        self.kind.len() == self.thread.len() && self.sample.len() == self.thread.len()
    }

    // The lowest operation that refusal 5 names.
    #[tactic(auto, using(crate::proofs::SearchLaws::lowest_first, crate::proofs::FitLaws::lowest_none))]
    fn first_unfit(&self, threads: usize) -> Option<usize>
        requires { IsEven self.now }
        ensures { result ≡ lowest (unfit_at threads self.now.thread.now self.now.kind.now self.now.sample.now) (length self.now.thread.now) }
    {
        for o in 0..self.thread.len() {
            if is_unfit(threads, self.thread[o], self.kind[o], self.sample[o]) {
                return Some(o);
            }
        }
        None
    }

    // Refusals 3, 4 and 5.
    #[tactic(auto, unfolding(crate::specs::Parts::operations_refusal))]
    fn check_operations(&self, threads: usize) -> Result<(), Refusal>
        ensures { result ≡ operations_refusal threads self.now.thread.now self.now.kind.now self.now.sample.now }
    {
        if !self.is_together() {
            return Err(Refusal::Lengths);
        }
        if 128 < self.thread.len() {
            return Err(Refusal::Operations);
        }
        match self.first_unfit(threads) {
            Some(o) => Err(Refusal::Operation(o)),
            None => Ok(()),
        }
    }

    // Refusals 1, 3, 4 and 5: a number of threads and a table.
    #[tactic(auto, using(crate::proofs::ChainLaws::table_chain))]
    pub fn check(&self, threads: usize) -> Result<(), Refusal>
        ensures { result ≡ table_refusal threads self.now.thread.now self.now.kind.now self.now.sample.now }
    {
        check_number(threads, 16, Refusal::Threads)?;
        self.check_operations(threads)
    }

    // How many puts the table has.
    #[tactic(auto, using(crate::proofs::SearchLaws::puts_counted))]
    pub fn count_puts(&self) -> usize
        ensures { result ≡ puts_in self.now.kind.now }
    {
        self.kind
            .iter()
            .filter(|kind| matches!(Kind::of(**kind), Kind::Put))
            .count()
    }
}

impl Input<'_> {
    // The lowest schedule entry that is no thread.
    fn first_stray(&self) -> Option<usize>
        ensures { result ≡ lowest (stray_at self.now.threads self.now.schedule.now) (length self.now.schedule.now) }
    {
        let threads = self.threads;
        self.schedule
            .iter()
            .position(|&thread| threads <= thread as usize)
    }

    // Refusals 6, 7 and 8: the schedule, for a table that passes 1 to 5.
    #[tactic(auto, unfolding(crate::specs::Parts::schedule_refusal))]
    fn check_schedule(&self) -> Result<(), Refusal>
        ensures { result ≡ schedule_refusal self.now.threads self.now.slots self.now.table.kind.now self.now.schedule.now }
    {
        if self.slots < self.table.count_puts() {
            return Err(Refusal::Puts);
        }
        if 4096 < self.schedule.len() {
            return Err(Refusal::Schedule);
        }
        match self.first_stray() {
            Some(i) => Err(Refusal::Entry(i)),
            None => Ok(()),
        }
    }

    // Refusals 1 to 8: all that a run asks of its input.
    #[tactic(auto, using(crate::proofs::ChainLaws::input_chain))]
    pub fn check(&self) -> Result<(), Refusal>
        ensures { result ≡ input_refusal (input_in self.now) }
    {
        check_number(self.threads, 16, Refusal::Threads)?;
        check_number(self.slots, 64, Refusal::Slots)?;
        self.table.check_operations(self.threads)?;
        self.check_schedule()
    }
}
