//! The draws: numbers that follow from a seed.
ghost use Rattle.std.specs.Prelude.{◌≡◌};
ghost use Rattle.demo.specs.Draws.{after_draw, number_of};

/// Numbers below 32,768, drawn one after another.
#[derive(Drop)]
pub struct Draws {
    /// What the next draw is made from, below 2^31 once one was drawn.
    pub state: u32,
}

impl Draws {
    /// The draws that follow from a seed.
    pub fn new(seed: u32) -> Draws
        ensures { result.state ≡ seed }
    {
        Draws { state: seed }
    }

    /// The next number.
    pub fn draw(&mut self) -> u32
        ensures drawn { result ≡ number_of (after_draw self.old.state) }
        ensures after { self.new.state ≡ after_draw self.old.state }
    {
        let next = (u64::from(self.state) * 1_103_515_245 + 12_345) % 2_147_483_648;
        self.state = next as u32;
        self.state / 65_536
    }
}
