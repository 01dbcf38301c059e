// A plain queue of samples.
ghost use Rattle.std.specs.Prelude.{◌≡◌, ◌≤◌, ◌<◌, List, [], ◌∷◌, ◌++◌, ℤ, length, MatchOption};
ghost use Rattle.judge.specs.Queue.{window};

use std::marker::Model;

// At most 128 samples. They stand in `slots` from `front` on, and go on at its first place.
#[derive(Drop)]
pub(crate) struct Queue {
    slots: [i32; 128],
    front: usize,
    held: usize,
}

impl Model for Queue {
    ghost Value = { List ℤ };

    ghost view = { λ q. window q.slots q.front q.held };

    ghost invariant = { λ q. (q.front < 128) × (q.held ≤ 128) };
}

impl Queue {
    #[tactic(auto, unfolding(crate::specs::Queue::window))]
    pub(crate) fn new() -> Self
        ensures { result ≡ [] }
    {
        Queue {
            slots: [0; 128],
            front: 0,
            held: 0,
        }
    }

    // Puts x at the back.
    #[tactic(auto, using(crate::proofs::QueueLaws::window_length, crate::proofs::QueueLaws::window_push))]
    pub(crate) fn push(&mut self, x: i32)
        requires { length self.old < 128 }
        ensures { self.new ≡ self.old ++ x ∷ [] }
    {
        self.slots[(self.front + self.held) % 128] = x;
        self.held += 1;
    }

    // Takes the sample at the front, if there is one.
    #[tactic(auto, using(crate::proofs::QueueLaws::window_none, crate::proofs::QueueLaws::window_pop))]
    pub(crate) fn pop(&mut self) -> Option<i32>
        ensures { MatchOption result ((self.old ≡ []) × (self.new ≡ [])) (λ x. self.old ≡ x ∷ self.new) }
    {
        if self.held == 0 {
            return None;
        }
        let x = self.slots[self.front];
        self.front = (self.front + 1) % 128;
        self.held -= 1;
        Some(x)
    }
}
