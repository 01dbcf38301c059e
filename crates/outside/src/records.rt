// Thread records as three lists of numbers: phase codes, phase numbers, ends.
ghost use Rattle.std.specs.Prelude.{◌≡◌, ◌≤◌, length};
ghost use Rattle.machine.specs.Shown.{phase_told};
ghost use Rattle.outside.specs.RecordTwin.{Shows};

use machine::{Phase, ThreadRecord};

// The document's code of a phase; its number, 0 where it has none; the end of its pass, 0 where it does not scan.
fn tell(p: Phase) -> (u8, i32, u8)
    ensures { (result.0, result.1, result.2) ≡ phase_told p }
{
    match p {
        Phase::Rest => (0, 0, 0),
        Phase::CalledPut => (1, 0, 0),
        Phase::Reserved(slot) => (2, slot.into(), 0),
        Phase::Stored => (3, 0, 0),
        Phase::CalledTake => (4, 0, 0),
        Phase::Scanning(slot, end) => (5, slot.into(), end),
        Phase::Holding(x) => (6, x, 0),
    }
}

// What the records show, into the first entries of the three lists.
pub(crate) fn show_records(
    records: &[ThreadRecord],
    phases: &mut [u8],
    numbers: &mut [i32],
    ends: &mut [u8],
)
    requires phase_room { length records.now ≤ length phases.old }
    requires number_room { length records.now ≤ length numbers.old }
    requires end_room { length records.now ≤ length ends.old }
    ensures { Shows records.now phases.old numbers.old ends.old phases.new numbers.new ends.new }
{
    for (i, record) in records.iter().enumerate() {
        (phases[i], numbers[i], ends[i]) = tell(record.phase);
    }
}
