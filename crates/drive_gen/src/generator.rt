ghost use Rattle.std.specs.Prelude.{◌≡◌, ◌<◌};
ghost use Rattle.drive_gen.specs.Generator.{next_state, high_bits};

/// What draws numbers, one after the other, from the state that it has.
#[derive(Clone, Copy)]
pub struct Generator {
    pub state: u64,
}

impl Generator {
    /// The next number, below `m`: by the high bits of the next state, which is the new one.
    #[tactic(auto, unfolding(crate::specs::Generator::next_state))]
    pub fn draw(&mut self, m: u32) -> u32
        requires { 0 < m }
        ensures state { self.new.state ≡ next_state self.old.state }
        ensures number { result ≡ high_bits (next_state self.old.state) m }
        ensures below { result < m }
    {
        self.state = self
            .state
            .wrapping_mul(6364136223846793005)
            .wrapping_add(1442695040888963407);
        ((self.state >> 33) % u64::from(m)) as u32
    }
}
