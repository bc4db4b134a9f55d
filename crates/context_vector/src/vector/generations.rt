//! Generations as digits: a generation is its digit, and fifteen times what is above it.

ghost use Rattle.std.specs.Prelude.{◌≡◌, ◌≤◌, ◌<◌};
ghost use Rattle.context_vector.specs.Code.Words.{generation, low_of, high_of};

use op_name::GENERATIONS;

/// The generation of a digit and what is above it.
pub fn generation_of(digit: u16, high: u16) -> u16
    requires { generation digit high ≤ GENERATIONS }
    ensures { result ≡ generation digit high }
{
    if digit == 0 {
        return 0;
    }
    digit + 15 * high
}

/// The digit of a generation, 0 for none.
pub fn low_of(generation: u16) -> u16
    ensures low { result ≡ low_of generation }
    ensures range { result < 16 }
{
    if generation == 0 {
        return 0;
    }
    1 + (generation - 1) % 15
}

/// What is above the digit of a generation.
pub fn high_of(generation: u16) -> u16
    ensures { result ≡ high_of generation }
{
    generation.saturating_sub(1) / 15
}
