// A whole number of 1/256 mm as an f64.
#![tactic(auto)]

ghost use Rattle.rules.specs.Millimetres.{word_64, FigureWord};

// 1/256: a power of two, so that nothing is lost. The whole number 0 is the positive zero as an f64, and stays it.
const STEP: f64 = 0.00390625;

// "for 0 the positive zero, else the f64 whose IEEE 754 word is .."; its value is exactly N/256 (`figure_exactly`).
pub fn figure(n: u32) -> f64
    ensures { FigureWord (word_64 result) n }
{
    f64::from(n) * STEP
}
