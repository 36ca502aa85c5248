// Numbers that look random, the same in every run.

#[derive(Drop)]
pub(crate) struct Dice {
    pub(crate) state: u64,
}

impl Dice {
    // One more number, by shifts and exclusive or.
    fn roll(&mut self) -> u64 {
        let mut x = self.state;
        x ^= x << 13;
        x ^= x >> 7;
        x ^= x << 17;
        self.state = x;
        x
    }

    // A number below the bound; 0 for the bound 0: a trial over no lines then names line 0, which its job lacks.
    pub(crate) fn below(&mut self, bound: u32) -> u32 {
        let high = (self.roll() >> 32) as u32;
        if bound == 0 { 0 } else { high % bound }
    }

    pub(crate) fn one_in(&mut self, bound: u32) -> bool {
        self.below(bound) == 0
    }

    // One of the numbers; 0 if there is none, which no caller asks, so an `Option` would only be unwrapped.
    pub(crate) fn pick(&mut self, numbers: &[i32]) -> i32 {
        let k = self.below(numbers.len().min(1000) as u32) as usize;
        numbers.get(k).copied().unwrap_or(0)
    }
}
