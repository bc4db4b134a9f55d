//! The numbers that generated sessions are drawn from.

ghost use Rattle.std.specs.Prelude.{◌≡◌};
ghost use Rattle.session_replay.specs.Generating.{next_number, drawn, draws_from, number_after};

/// What the number is multiplied by at a draw (Knuth's linear congruential generator of 64 bits, MMIX).
const MULTIPLIER: u64 = 6_364_136_223_846_793_005;

/// What is added at a draw.
const INCREMENT: u64 = 1_442_695_040_888_963_407;

/// The three draws of an event: what is done, where, and with which character.
#[derive(Clone, Copy)]
pub struct Draw {
    /// Chooses what is done.
    pub kind: u32,
    /// Chooses where.
    pub place: u32,
    /// Chooses the character.
    pub letter: u32,
}

/// Draws one after the other, from a first number on.
#[derive(Drop)]
pub struct Draws {
    number: u64,
}

impl Draws {
    /// Draws from this number on.
    pub fn new(start: u64) -> Draws
        ensures { result.number ≡ start }
    {
        Draws { number: start }
    }

    /// The draws of the next event.
    pub fn event(&mut self) -> Draw
        ensures draws { result ≡ draws_from self.old.number }
        ensures number { self.new.number ≡ number_after self.old.number }
    {
        let kind = self.draw();
        let place = self.draw();
        let letter = self.draw();
        Draw {
            kind,
            place,
            letter,
        }
    }

    // One draw: the upper half of the next number.
    fn draw(&mut self) -> u32
        ensures number { self.new.number ≡ next_number self.old.number }
        ensures draw { result ≡ drawn self.new.number }
    {
        self.number = self.number.wrapping_mul(MULTIPLIER).wrapping_add(INCREMENT);
        (self.number >> 32) as u32
    }
}
