// Phases 0, 3 and 6: a thread calls its next operation or returns from one, each with an event.
ghost use Rattle.std.specs.Prelude.{◌≡◌, ◌+◌, ◌*◌};
ghost use Rattle.stepping.specs.Twins.{Within, SameParts, SameLists, world_in, noted, turn_of, called, given};

use crate::cells::{get_at, set_at};
use crate::plan::Script;
use crate::{Doing, Events, Parts};
use limits::Kind;

impl Parts<'_> {
    // Writes an event's code, and the sample beside it.
    fn note(&mut self, code: u16, x: i32, events: &mut Events)
        requires { Within 4096 self.old.counts.now }
        ensures same_parts { SameParts self.old self.new }
        ensures same_lists { SameLists events.old events.new }
        ensures world_after { world_in self.new events.new ≡ noted (world_in self.old events.old) code x }
    {
        set_at(events.codes, self.counts.events, code);
        set_at(events.values, self.counts.events, x);
        self.counts.events += 1;
    }

    // Phase 0: the thread calls operation o, or idles where none is left.
    #[tactic(auto, unfolding(crate::specs::Twins::called))]
    pub(crate) fn call_next(
        &mut self,
        next: Option<u8>,
        script: &Script,
        events: &mut Events,
    ) -> Doing
        requires { Within 4096 self.old.counts.now }
        ensures same_parts { SameParts self.old self.new }
        ensures same_lists { SameLists events.old events.new }
        ensures turn { turn_of (world_in self.new events.new) result ≡ called script.now.table.kind.now (world_in self.old events.old) next }
    {
        match next {
            Some(o) => {
                // A code is a number, as in the lent list of codes, which C reads; `history::event_of` reads it back.
                self.note(2 * (o as u16), 0, events);
                match Kind::of(get_at(script.table.kind, o as usize, 0)) {
                    Kind::Put => Doing::CalledPut(o),
                    Kind::Take => Doing::CalledTake(o),
                }
            }
            None => {
                self.counts.idle += 1;
                Doing::Rest(None)
            }
        }
    }

    // Phases 3 and 6: operation o returns, with x beside its event; the thread's next operation comes from the plan.
    pub(crate) fn give_back(&mut self, o: u8, x: i32, script: &Script, events: &mut Events) -> Doing
        requires { Within 4096 self.old.counts.now }
        ensures same_parts { SameParts self.old self.new }
        ensures same_lists { SameLists events.old events.new }
        ensures turn { turn_of (world_in self.new events.new) result ≡ given script.now.next (world_in self.old events.old) o x }
    {
        self.note(2 * (o as u16) + 1, x, events);
        Doing::Rest(get_at(&script.next, o as usize, None))
    }
}
