// Where the events of a history stand.
ghost use Rattle.std.specs.Prelude.{◌≡◌, ℕ, ◌<◌, ◌==◌, cond, Some, None, ◌↔◌, IsTrue};
ghost use Rattle.history.specs.declared.Event.{Event};
ghost use Rattle.history.specs.Codes.{event_code};
ghost use Rattle.judge.specs.Marks.{place_of, called, returned, Earlier};

use history::Event;

// Where each operation was called and where it returned, as far as a history was read. No more than 256 events can stand, so a byte holds a place.
#[derive(Drop)]
pub(crate) struct Marks {
    calls: [Option<u8>; 128],
    returns: [Option<u8>; 128],
}

impl Marks {
    // Of no events.
    pub(crate) fn new() -> Self
        ensures { (e : Event) → place_of result e ≡ None }
    {
        Marks {
            calls: [None; 128],
            returns: [None; 128],
        }
    }

    // Notes where an event of an operation below 128 stands.
    pub(crate) fn note(&mut self, event: Event, place: u8)
        requires { event_code event < 256 }
        ensures { (e : Event) → place_of self.new e ≡ cond (event_code e == event_code event) (Some place) (place_of self.old e) }
    {
        match event {
            Event::Call(o) => self.calls[o] = Some(place),
            Event::Return(o) => self.returns[o] = Some(place),
        }
    }

    // Where o was called, if it was.
    pub(crate) fn find_call(&self, o: usize) -> Option<u8>
        ensures { result ≡ called self.now o }
    {
        *self.calls.get(o)?
    }

    // Where o returned, if it has.
    pub(crate) fn find_return(&self, o: usize) -> Option<u8>
        ensures { result ≡ returned self.now o }
    {
        *self.returns.get(o)?
    }

    // Whether a returned before b was called.
    #[tactic(auto, unfolding(crate::specs::Marks::Earlier))]
    pub(crate) fn is_earlier(&self, a: usize, b: usize) -> bool
        ensures { IsTrue result ↔ Earlier self.now a b }
    {
        match (self.find_return(a), self.find_call(b)) {
            (Some(i), Some(j)) => i < j,
            _ => false,
        }
    }
}
