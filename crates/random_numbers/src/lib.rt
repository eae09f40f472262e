// Pseudo-random numbers.
#![tactic(auto)]

ghost use Rattle.std.specs.Prelude.{◌<◌};

// The state after x of Marsaglia's xorshift with the shifts 13, 7 and 17.
pub fn shifted(x: usize) -> usize {
    let a = x ^ (x << 13);
    let b = a ^ (a >> 7);
    b ^ (b << 17)
}

// A number as a byte, without what does not fit.
pub fn byte(x: usize) -> u8 {
    (x % 256) as u8
}

// A stream of pseudo-random numbers.
#[derive(Clone, Copy)]
pub struct Random {
    state: usize,
}

impl Random {
    // The stream after a seed.
    pub fn new(seed: usize) -> Random {
        Random { state: seed }
    }

    // The state, before the first number the seed.
    pub fn state(&self) -> usize {
        self.state
    }

    // Any number of 64 bits but 0.
    pub fn any(&mut self) -> usize {
        self.state = shifted(self.state);
        self.state
    }

    // A number below k, or 0.
    pub fn below(&mut self, k: usize) -> usize
        ensures { 0 < k → result < k }
    {
        let x = self.any();
        if k == 0 { 0 } else { (x >> 20) % k }
    }

    // Once in k times.
    pub fn once_in(&mut self, k: usize) -> bool {
        self.below(k) == 0
    }

    // A number from `low` to `high`.
    pub fn between(&mut self, low: usize, high: usize) -> usize {
        let k = high.saturating_sub(low).saturating_add(1);
        low.saturating_add(self.below(k))
    }

    // Each item changes places with one before it or itself.
    pub fn shuffle<T>(&mut self, items: &mut [T]) {
        for i in 0..items.len() {
            let j = self.below(i + 1);
            items.swap(i, j);
        }
    }
}
