// Phases 1 and 2: a put reserves a slot, then fills it.
ghost use Rattle.std.specs.Prelude.{◌≡◌};
ghost use Rattle.stepping.specs.Twins.{Within, SameParts, state_in, moved_of, reserved, stored};

use crate::cells::set_at;
use crate::{Doing, Parts};

impl Parts<'_> {
    // Phase 1: the put gets the reservation count as its slot.
    #[tactic(auto, unfolding(crate::specs::Twins::reserved))]
    pub(crate) fn reserve(&mut self, o: u8) -> Doing
        ensures same_parts { SameParts self.old self.new }
        ensures moved { moved_of (state_in self.new) result ≡ reserved (state_in self.old) o }
    {
        let slot = self.counts.back;
        if slot < 64 {
            self.owners[slot] = o;
            self.counts.back += 1;
            Doing::Reserved(slot as u8, o)
        } else {
            Doing::CalledPut(o)
        }
    }

    // Phase 2: the slot is filled.
    pub(crate) fn store(&mut self, slot: u8, o: u8) -> Doing
        requires { Within 4096 self.old.counts.now }
        ensures same_parts { SameParts self.old self.new }
        ensures moved { moved_of (state_in self.new) result ≡ stored (state_in self.old) slot o }
    {
        set_at(self.marks, slot as usize, 1);
        self.counts.stores += 1;
        Doing::Stored(o)
    }
}
