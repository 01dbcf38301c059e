// The listed order: two rows and their merge. It knows a history and two rows, and nothing of slots and phases.
#![tactic(auto)]

ghost use Rattle.std.specs.Prelude.{◌≡◌, map, ◌≤◌, length, drop};
ghost use Rattle.order.specs.Order.{merge};
ghost use Rattle.order.specs.Listing.{bare, pairs, rows_fit, listing_answer, listing_after};
ghost use Rattle.order.specs.Weaving.{Ends, Needs};

use history::Event;

// What is to be listed: takes[i] found puts[i], and nobody found the others.
#[derive(Clone, Copy, Debug)]
pub struct Rows<'a> {
    pub takes: &'a [u8],
    pub puts: &'a [u8],
    pub others: &'a [u8],
}

impl Rows<'_> {
    // Whether each take has its put, and the room is enough for all puts and takes.
    fn fit(&self, room: usize) -> bool
        ensures { result ≡ rows_fit (length self.now.takes.now) (length self.now.puts.now) (length self.now.others.now) room }
    {
        let takes = self.takes.len();
        let others = self.others.len();
        takes == self.puts.len() && others <= room && takes <= (room - others) / 2
    }
}

// For each operation, the place after its last entry in the row; 0 if it has none.
fn note_ends(row: &[u8]) -> [usize; 256]
    ensures { Ends row.now result (length row.now) }
{
    let mut ends = [0; 256];
    for (s, o) in row.iter().enumerate() {
        ends[*o as usize] = s + 1;
    }
    ends
}

// For each operation, the latest end in the row among the operations that precede it. No row names an operation from 256 on.
fn note_needs(codes: &[u16], ends: &[usize; 256]) -> [usize; 256]
    ensures { Needs codes.now ends.now result (length codes.now) }
{
    let mut needs = [0; 256];
    let mut reach: usize = 0;
    for code in codes {
        match history::event_of(*code) {
            Event::Call(o) => {
                if o < 256 {
                    needs[o] = reach;
                }
            }
            Event::Return(o) => {
                if o < 256 {
                    reach = reach.max(ends[o]);
                }
            }
        }
    }
    needs
}

// Merges in place: the row of puts stands in the order behind the room for the takes, and the merged rows stand there afterwards.
// The row's first k puts are listed and the next entry goes to out, which stays before the row's rest as long as a take is left.
// Each take stands behind the later of the put it found and the last put that precedes it.
fn merge_rows(codes: &[u16], rows: &Rows, order: &mut [u8])
    requires together { length rows.now.puts.now ≡ length rows.now.takes.now }
    requires room { length rows.now.takes.now ≤ length order.old }
    ensures { order.new ≡ merge (map bare codes.now) (drop (length rows.now.takes.now) order.old) (pairs rows.now.takes.now rows.now.puts.now) }
{
    let m = rows.takes.len();
    let ends = note_ends(&order[m..]);
    let needs = note_needs(codes, &ends);
    let mut k: usize = 0;
    let mut out = 0;
    for (t, p) in rows.takes.iter().zip(rows.puts) {
        let r = k.max(ends[*p as usize]).max(needs[*t as usize]);
        order.copy_within(m + k..m + r, out);
        out += r - k;
        order[out] = *t;
        out += 1;
        k = r;
    }
}

// Lists the order of a history, given by its codes. Gives how many entries the order got; none where the rows do not belong together or do not fit.
pub fn list_order(codes: &[u16], rows: &Rows, order: &mut [u8]) -> Option<usize>
    ensures value { result ≡ listing_answer codes.now rows.now.takes.now rows.now.puts.now rows.now.others.now (length order.old) }
    ensures order_after { order.new ≡ listing_after codes.now rows.now.takes.now rows.now.puts.now rows.now.others.now order.old }
{
    if !rows.fit(order.len()) {
        return None;
    }
    let found = rows.takes.len() + rows.puts.len();
    let all = found + rows.others.len();
    order[rows.takes.len()..found].copy_from_slice(rows.puts);
    order[found..all].copy_from_slice(rows.others);
    merge_rows(codes, rows, &mut order[..all]);
    Some(all)
}
