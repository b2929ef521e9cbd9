// Random lines, all from one seed.
ghost use Rattle.std.specs.Prelude.{◌^◌, ◌≤◌, ◌<◌, length};
ghost use Rattle.rules.specs.Limits.{side_limit, line_limit};
ghost use Rattle.gauge.specs.Line.{Line};

use crate::plain::squared;
use rules::{LINE_LIMIT, SIDE_LIMIT};

// A number of the generator is the one before times this factor ..
const FACTOR: u64 = 48_271;
// .. modulo this prime, 2^31 - 1.
const MODULUS: u64 = 2_147_483_647;
// Most lines are at most this long.
const SHORT: u64 = 48;
// The styles, of which one is drawn for each line.
const STYLES: [Style; 7] = [
    Style::Equal,
    Style::Small,
    Style::Near,
    Style::Squares,
    Style::High,
    Style::Any,
    Style::Gaps,
];

// What the values of a line are.
#[derive(Clone, Copy)]
enum Style {
    // all equal
    Equal,
    // small, many equal
    Small,
    // within the reach
    Near,
    // squares of such
    Squares,
    // close below the limit
    High,
    // anything up to the limit
    Any,
    // empty columns, which stand at the limit, among small values
    Gaps,
}

// The generator is Park and Miller's.
#[derive(Drop)]
pub struct Generator {
    pub seed: u64,
}

impl Generator {
    // Its next number.
    fn step(&mut self) -> u64
        ensures { result < 2 ^ 31 }
    {
        self.seed = self.seed % MODULUS * FACTOR % MODULUS;
        self.seed
    }

    // A random number below the bound. Two numbers of the generator together go past the line limit.
    fn draw(&mut self, bound: u64) -> u64
        requires { 0 < bound }
        ensures { result < bound }
    {
        let high = self.step();
        let low = self.step();
        (high * MODULUS + low) % bound
    }

    // One value of a line. The reach is one number for the whole line, below its length: values within it differ about as
    // much as places do, so that many columns win somewhere.
    fn value(&mut self, style: Style, reach: u64) -> u64
        requires { reach < side_limit }
        ensures { result ≤ line_limit }
    {
        match style {
            Style::Equal => reach,
            Style::Small => self.draw(4),
            Style::Near => self.draw(reach + 1),
            Style::Squares => squared(self.draw(reach + 1)),
            Style::High => LINE_LIMIT - squared(self.draw(reach + 1)),
            Style::Any => self.draw(LINE_LIMIT + 1),
            Style::Gaps => {
                if self.draw(2) == 0 {
                    LINE_LIMIT
                } else {
                    self.draw(reach + 1)
                }
            }
        }
    }

    // Fills a line with values of one style.
    pub fn fill(&mut self, values: &mut [u64])
        requires from { 1 ≤ length values.old }
        requires to { length values.old ≤ side_limit }
        ensures { Line values.new }
    {
        let style = STYLES[self.draw(STYLES.len() as u64) as usize];
        let reach = self.draw(values.len() as u64);
        for value in values.iter_mut() {
            *value = self.value(style, reach);
        }
    }

    // The length of a line: mostly short, one in forty any length up to the side.
    pub fn some_length(&mut self) -> usize
        ensures from { 1 ≤ result }
        ensures to { result ≤ side_limit }
    {
        let longest = if self.draw(40) == 0 {
            u64::from(SIDE_LIMIT)
        } else {
            SHORT
        };
        1 + self.draw(longest) as usize
    }
}
