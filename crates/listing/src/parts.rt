// The parts of a listing that have a line for each entry of a list, and the whole of it, each put on a page.
ghost use Rattle.std.specs.Prelude.{◌≡◌, ◌≤◌, length};

use limits::Refusal;
use machine::ThreadRecord;
use numerals::Page;
use run::Summary;

// What a listing shows of a run that was played: what the run answers, and the lists that it filled, as far as it filled them.
#[derive(Clone, Copy)]
pub(crate) struct Shown<'a> {
    pub summary: Summary,
    pub kind: &'a [u8],
    pub codes: &'a [u16],
    pub values: &'a [i32],
    pub order: &'a [u8],
    pub marks: &'a [u8],
    pub held: &'a [i32],
    pub records: &'a [ThreadRecord],
    ghost few_events: { length codes.now ≤ 256 },
    ghost valued: { length values.now ≡ length codes.now },
    ghost few_listed: { length order.now ≤ 128 },
    ghost few_slots: { length marks.now ≤ 64 },
    ghost holding: { length held.now ≡ length marks.now },
    ghost few_threads: { length records.now ≤ 16 },
}

impl Shown<'_> {
    ghost use Rattle.numerals.specs.Places.{Wrote};
    ghost use Rattle.listing.specs.Twins.{events_of, order_of, slots_of, threads_of, listing_by, TextSays};

    // The lines of the events.
    fn put_events(&self, page: &mut Page)
        ensures put { Wrote page.old (events_of self.now) page.new }
        ensures short { length (events_of self.now) ≤ 7936 }
    {
        for (code, value) in self.codes.iter().zip(self.values) {
            lines::put_event(page, *code, *value, self.kind);
        }
    }

    // The lines of the order.
    fn put_order(&self, page: &mut Page)
        ensures put { Wrote page.old (order_of self.now) page.new }
        ensures short { length (order_of self.now) ≤ 1280 }
    {
        for operation in self.order {
            lines::put_line(page, b"order\t", *operation as usize);
        }
    }

    // The lines of the slots.
    fn put_slots(&self, page: &mut Page)
        ensures put { Wrote page.old (slots_of self.now) page.new }
        ensures short { length (slots_of self.now) ≤ 1280 }
    {
        for (i, mark) in self.marks.iter().enumerate() {
            lines::put_slot(page, i, *mark, self.held[i]);
        }
    }

    // The lines of the threads.
    fn put_threads(&self, page: &mut Page)
        ensures put { Wrote page.old (threads_of self.now) page.new }
        ensures short { length (threads_of self.now) ≤ 768 }
    {
        for (t, record) in self.records.iter().enumerate() {
            lines::put_thread(page, t, record.phase);
        }
    }

    // The whole listing.
    fn put(&self, page: &mut Page)
        ensures put { Wrote page.old (listing_by self.now) page.new }
        ensures short { length (listing_by self.now) ≤ 12288 }
    {
        lines::put_line(page, b"back\t", self.summary.back);
        self.put_events(page);
        self.put_order(page);
        self.put_slots(page);
        self.put_threads(page);
        lines::put_counts(page, self.summary);
    }

    // The listing in a lent text, where it fits. For a text shorter than ROOM the bytes are counted first, on a page with no room.
    pub(crate) fn fill(&self, text: &mut [u8]) -> Result<usize, Refusal>
        ensures text_says { TextSays (listing_by self.now) text.old result text.new }
        ensures short { length (listing_by self.now) ≤ 12288 }
    {
        if text.len() < crate::ROOM {
            let mut counted = Page::new(&mut []);
            self.put(&mut counted);
            if text.len() < counted.count() {
                return Err(Refusal::Room);
            }
        }
        let mut page = Page::new(text);
        self.put(&mut page);
        Ok(page.count())
    }
}
