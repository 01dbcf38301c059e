// The listing of a run as bytes, and the one line of a refusal.
#![tactic(auto)]

ghost use Rattle.limits.specs.Inputs.{input_in};
ghost use Rattle.listing.specs.Listing.{ListSays, RefusalSays};

mod parts;

use limits::{Input, Refusal};
use numerals::Page;
use parts::Shown;
use run::Lent;

// A text of this many bytes has room for every listing.
pub const ROOM: usize = 12288;

// The listing of a run.
pub fn list_run(input: &Input, text: &mut [u8]) -> Result<usize, Refusal>
    ensures { ListSays (input_in input.now) text.old result text.new }
{
    let mut codes = [0u16; 256];
    let mut values = [0i32; 256];
    let mut order = [0u8; 128];
    let mut marks = [0u8; 64];
    let mut held = [0i32; 64];
    let mut lent = Lent {
        codes: &mut codes,
        values: &mut values,
        order: &mut order,
        marks: &mut marks,
        held: &mut held,
    };
    let ran = run::run_core(input, &mut lent, 16)?;
    let summary = ran.summary;
    let shown = Shown {
        summary,
        kind: input.table.kind,
        codes: &codes[..summary.events],
        values: &values[..summary.events],
        order: &order[..summary.order],
        marks: &marks[..input.slots],
        held: &held[..input.slots],
        records: &ran.records[..input.threads],
    };
    shown.fill(text)
}

// The one line that refused input gets, where it fits.
pub fn list_refusal(r: Refusal, text: &mut [u8]) -> Result<usize, Refusal>
    ensures { RefusalSays r text.old result text.new }
{
    let mut counted = Page::new(&mut []);
    lines::put_refusal(&mut counted, r);
    if text.len() < counted.count() {
        return Err(Refusal::Room);
    }
    let mut page = Page::new(text);
    lines::put_refusal(&mut page, r);
    Ok(page.count())
}
