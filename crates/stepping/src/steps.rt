// The schedule, step by step: the bench's state goes in by value and comes back stepped, once for each schedule entry; its finds are lent beside it.
ghost use Rattle.std.specs.Prelude.{◌≡◌, ℕ, ◌≤◌, ◌<◌, length, get_or};
ghost use Rattle.stepping.specs.Twins.{Within, SameParts, SameLists, turn_of, acted, world_in, world_with, step_world, run_world};

use crate::plan::Script;
use crate::{Doing, Events, Finds, Moving, Parts};

impl Parts<'_> {
    // The step of a thread, by what it is doing; gives what it does next.
    #[tactic(auto, unfolding(crate::specs::Twins::acted))]
    fn act(&mut self, doing: Doing, script: &Script, events: &mut Events) -> Doing
        requires { Within 4096 self.old.counts.now }
        ensures same_parts { SameParts self.old self.new }
        ensures same_lists { SameLists events.old events.new }
        ensures turn { turn_of (world_in self.new events.new) result
            ≡ acted script.now.table.kind.now script.now.table.sample.now script.now.next (world_in self.old events.old) doing }
    {
        match doing {
            Doing::Rest(next) => self.call_next(next, script, events),
            Doing::CalledPut(o) => self.reserve(o),
            Doing::Reserved(slot, o) => self.store(slot, o),
            Doing::Stored(o) => self.give_back(o, 0, script, events),
            Doing::CalledTake(o) => self.begin(o),
            Doing::Scanning(slot, end, o) => self.swap(slot, end, o, script),
            Doing::Holding(o, x) => self.give_back(o, x, script, events),
        }
    }

    // One step of thread t.
    #[tactic(auto, unfolding(crate::specs::Twins::step_world))]
    fn step(&mut self, t: usize, script: &Script, events: &mut Events)
        requires { (t < 16) × Within 4096 self.old.counts.now }
        ensures same_parts { SameParts self.old self.new }
        ensures same_lists { SameLists events.old events.new }
        ensures world_after { world_in self.new events.new
            ≡ step_world script.now.table.kind.now script.now.table.sample.now script.now.next (world_in self.old events.old) t }
    {
        let doing = self.threads[t];
        let next = self.act(doing, script, events);
        self.threads[t] = next;
    }
}

impl Moving {
    // One step of thread t: the state goes in by value and comes back stepped. It is taken apart into variables, since a struct that holds arrays would
    // be copied whole, twice, where it is changed in place.
    fn step(self, t: usize, script: &Script, finds: &mut Finds, events: &mut Events) -> Moving
        requires { (t < 16) × Within 4096 self.counts }
        ensures same_lists { SameLists events.old events.new }
        ensures world_after { world_with result finds.new events.new
            ≡ step_world script.now.table.kind.now script.now.table.sample.now script.now.next (world_with self finds.old events.old) t }
    {
        let mut threads = self.threads;
        let mut counts = self.counts;
        let mut marks = self.marks;
        let mut owners = self.owners;
        let mut parts = Parts {
            threads: &mut threads,
            counts: &mut counts,
            marks: &mut marks,
            owners: &mut owners,
            takes: &mut finds.takes,
            puts: &mut finds.puts,
        };
        parts.step(t, script, events);
        Moving {
            threads,
            counts,
            marks,
            owners,
        }
    }

    // The whole schedule.
    pub(crate) fn run_all(
        self,
        schedule: &[u8],
        script: &Script,
        finds: &mut Finds,
        events: &mut Events,
    ) -> Moving
        requires within { Within 0 self.counts }
        requires schedule_small { (length schedule.now ≤ 4096) × ((k : ℕ) → k < length schedule.now → get_or schedule.now k 0 < 16) }
        ensures same_lists { SameLists events.old events.new }
        ensures world_after { world_with result finds.new events.new
            ≡ run_world script.now.table.kind.now script.now.table.sample.now script.now.next (world_with self finds.old events.old) schedule.now }
    {
        let mut moving = self;
        for t in schedule {
            moving = moving.step(*t as usize, script, finds, events);
        }
        moving
    }
}
