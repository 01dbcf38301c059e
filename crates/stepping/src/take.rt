// Phases 4 and 5: a take begins a pass and empties slot after slot, until one held a sample or the pass ends.
ghost use Rattle.std.specs.Prelude.{◌≡◌};
ghost use Rattle.stepping.specs.Twins.{Within, SameParts, state_in, moved_of, begun, passed, swapped};

use crate::cells::{get_at, set_at};
use crate::plan::Script;
use crate::{Doing, Parts};

impl Parts<'_> {
    // Phase 4: a pass begins, unless nothing is reserved.
    #[tactic(auto, unfolding(crate::specs::Twins::begun))]
    pub(crate) fn begin(&self, o: u8) -> Doing
        requires { Within 4096 self.now.counts.now }
        ensures { result ≡ begun (state_in self.now) o }
    {
        match self.counts.back {
            0 => Doing::CalledTake(o),
            end => Doing::Scanning(0, end as u8, o),
        }
    }

    // After a swap that met nothing: the next slot of the pass, or its end.
    #[tactic(auto, unfolding(crate::specs::Twins::passed))]
    fn pass_by(&mut self, slot: u8, end: u8, o: u8) -> Doing
        requires { Within 4097 self.old.counts.now }
        ensures same_parts { SameParts self.old self.new }
        ensures moved { moved_of (state_in self.new) result ≡ passed (state_in self.old) slot end o }
    {
        let next = slot.saturating_add(1);
        if next < end {
            return Doing::Scanning(next, end, o);
        }
        self.counts.fruitless += 1;
        Doing::CalledTake(o)
    }

    // Phase 5: empties the slot and looks at what it held.
    #[tactic(auto, unfolding(crate::specs::Twins::swapped))]
    pub(crate) fn swap(&mut self, slot: u8, end: u8, o: u8, script: &Script) -> Doing
        requires { Within 4096 self.old.counts.now }
        ensures same_parts { SameParts self.old self.new }
        ensures moved { moved_of (state_in self.new) result ≡ swapped script.now.table.sample.now (state_in self.old) slot end o }
    {
        let at = slot as usize;
        self.counts.swaps += 1;
        if get_at(self.marks, at, 0) == 0 {
            return self.pass_by(slot, end, o);
        }
        set_at(self.marks, at, 0);
        let put = get_at(self.owners, at, 0);
        let found = self.counts.finds;
        set_at(self.takes, found, o);
        set_at(self.puts, found, put);
        self.counts.finds += 1;
        Doing::Holding(o, get_at(script.table.sample, put as usize, 0))
    }
}
