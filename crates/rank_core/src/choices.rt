//! The choices of the network, from a seed.

ghost use Rattle.std.specs.Prelude.{◌≡◌};
ghost use Rattle.rank_core.specs.Choices as choices;

// The multiplier of Knuth's MMIX generator.
const MULTIPLIER: u64 = 6364136223846793005;

// The increment of Knuth's MMIX generator.
const INCREMENT: u64 = 1442695040888963407;

// The number of the generator that follows another one.
pub(crate) fn next_choice(x: u64) -> u64
    ensures { result ≡ choices.next_choice x }
{
    x.wrapping_mul(MULTIPLIER).wrapping_add(INCREMENT)
}

// Whether an old message is delivered again in a turn with this number: in one turn of eight. The generator's low bits
// repeat soon, so choices are made by its high ones.
pub(crate) fn repeats(x: u64) -> bool {
    x >> 61 == 0
}

// Whether a task is tried before a message in a turn with this number: in one turn of four.
pub(crate) fn prefers_task(x: u64) -> bool {
    (x >> 59) % 4 == 0
}

// Which of many is taken in a turn with this number.
pub(crate) fn pick_of(x: u64) -> u64 {
    x >> 24
}
