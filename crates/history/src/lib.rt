// Histories of calls and returns: what an event's code says. Definitions and laws of histories stand in specs/ and proofs/.
#![tactic(auto)]

ghost use Rattle.std.specs.Prelude.{◌≡◌};
ghost use Rattle.history.specs.Codes.{event_code};

// An event without its sample: the call or the return of an operation.
#[derive(Clone, Copy, Debug, PartialEq, Eq)]
pub enum Event {
    Call(usize),
    Return(usize),
}

// The event that a code gives.
pub fn event_of(code: u16) -> Event
    ensures { event_code result ≡ code }
{
    let operation = usize::from(code / 2);
    if code % 2 == 0 {
        Event::Call(operation)
    } else {
        Event::Return(operation)
    }
}
