// The lines of a listing, each put on a page.
#![tactic(auto)]

ghost use Rattle.std.specs.Prelude.{◌≡◌, List, [], ◌∷◌, ◌++◌, ℕ, ◌≤◌, length};
ghost use Rattle.numerals.specs.Decimal.{decimal};
ghost use Rattle.numerals.specs.Samples.{sample_text};
ghost use Rattle.numerals.specs.Places.{Wrote};
ghost use Rattle.lines.specs.Lines.{thread_line, count_lines, refused_line};
ghost use Rattle.lines.specs.Twins.{return_by, event_by, slot_by, phase_text};

use history::Event;
use limits::{Kind, Refusal};
use machine::Phase;
use numerals::Page;
use run::Summary;

// A number, and the end of the line.
fn end_number(page: &mut Page, n: usize)
    ensures { Wrote page.old (decimal n ++ (10 ∷ [])) page.new }
{
    page.put_number(n);
    page.put_byte(b'\n');
}

// A sample, and the end of the line.
fn end_sample(page: &mut Page, x: i32)
    ensures { Wrote page.old (sample_text x ++ (10 ∷ [])) page.new }
{
    page.put_sample(x);
    page.put_byte(b'\n');
}

// The words w, a number, and the end of the line.
pub fn put_line(page: &mut Page, w: &[u8], n: usize)
    ensures { Wrote page.old (w.now ++ (decimal n ++ (10 ∷ []))) page.new }
{
    page.put_bytes(w);
    end_number(page, n);
}

// The line of a return of operation o; x is the sample that a take got.
fn put_return(page: &mut Page, o: usize, kind: Kind, x: i32)
    ensures { Wrote page.old (return_by o kind x) page.new }
{
    page.put_bytes(b"event\treturn\t");
    page.put_number(o);
    if let Kind::Take = kind {
        page.put_byte(b'\t');
        page.put_sample(x);
    }
    page.put_byte(b'\n');
}

// The line of an event, by its code and the sample beside it.
pub fn put_event(page: &mut Page, code: u16, x: i32, kind: &[u8])
    ensures { Wrote page.old (event_by kind.now code x) page.new }
{
    match history::event_of(code) {
        Event::Call(o) => put_line(page, b"event\tcall\t", o),
        Event::Return(o) => {
            let number = kind.get(o).copied().unwrap_or(0);
            put_return(page, o, Kind::of(number), x);
        }
    }
}

// The line of slot i, by its mark and the sample it holds.
pub fn put_slot(page: &mut Page, i: usize, mark: u8, x: i32)
    ensures { Wrote page.old (slot_by i mark x) page.new }
{
    page.put_bytes(b"slot\t");
    page.put_number(i);
    // A mark is a number, as in the lent list of marks, which C reads.
    if mark == 0 {
        page.put_bytes(b"\tempty\n");
    } else {
        page.put_byte(b'\t');
        end_sample(page, x);
    }
}

// A phase's word and the number it shows, and the end of the line.
fn put_phase(page: &mut Page, p: Phase)
    ensures put { Wrote page.old (phase_text p) page.new }
    ensures short { length (phase_text p) ≤ 20 }
{
    match p {
        Phase::Rest => page.put_bytes(b"rest\n"),
        Phase::CalledPut => page.put_bytes(b"called-put\n"),
        Phase::Reserved(i) => put_line(page, b"reserved\t", i as usize),
        Phase::Stored => page.put_bytes(b"stored\n"),
        Phase::CalledTake => page.put_bytes(b"called-take\n"),
        Phase::Scanning(j, _) => put_line(page, b"scanning\t", j as usize),
        Phase::Holding(x) => {
            page.put_bytes(b"holding\t");
            end_sample(page, x);
        }
    }
}

// The line of thread t.
pub fn put_thread(page: &mut Page, t: usize, p: Phase)
    ensures put { Wrote page.old (thread_line t p) page.new }
    ensures short { length (thread_line t p) ≤ 48 }
{
    page.put_bytes(b"thread\t");
    page.put_number(t);
    page.put_byte(b'\t');
    put_phase(page, p);
}

// The lines of the six counts.
pub fn put_counts(page: &mut Page, s: Summary)
    ensures put { Wrote page.old (count_lines s) page.new }
    ensures short { length (count_lines s) ≤ 222 }
{
    put_line(page, b"count\tsteps\t", s.steps);
    put_line(page, b"count\tidle\t", s.idle);
    put_line(page, b"count\tstores\t", s.stores);
    put_line(page, b"count\tswaps\t", s.swaps);
    put_line(page, b"count\tfinds\t", s.finds);
    put_line(page, b"count\tfruitless\t", s.fruitless);
}

// The line of a refusal.
pub fn put_refusal(page: &mut Page, r: Refusal)
    ensures put { Wrote page.old (refused_line r) page.new }
    ensures short { length (refused_line r) ≤ 64 }
{
    page.put_bytes(b"refused\t");
    page.put_number(r.number() as usize);
    page.put_byte(b'\t');
    end_number(page, r.detail());
}
