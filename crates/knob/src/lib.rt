// The knob: one value opened to its whole number, a setting opened to two of them, and the clear map.
#![tactic(auto)]

ghost use Rattle.std.specs.Prelude.{◌≡◌, ◌≤◌, length, to_bits};
ghost use Rattle.std.specs.Float.{binary32};
ghost use Rattle.rules.specs.Limits.{knob_limit};
ghost use Rattle.rules.specs.Knob.{clear_byte};
ghost use Rattle.rules.specs.Refusals.{bad_slices};
ghost use Rattle.rules.specs.Answers.{number_of, opening_a, opening_b};
ghost use Rattle.rules.specs.Calls.{OpeningCall, ClearCall};
ghost use Rattle.knob.specs.Value.{Opens};
ghost use Rattle.knob.specs.Clear.{Cleared};

use rules::Setting;
use rules::answers::Opening;
use rules::refusal::Refusal;
use std::num::truncating_f32_to_u64;

// "multiplied by 64": a power of two, so that a good value loses nothing.
const SCALE: f32 = 64.0;

// And back: 1/64.
const BACK: f32 = 0.015625;

// Opens one value: the whole number that it is good for, or none. A NaN and everything out of the range fail the tests;
// what has a fraction does not come back.
pub fn open_value(value: f32) -> Option<u32>
    ensures { Opens (to_bits binary32 value) result }
{
    let x = value * SCALE;
    if 1.0 <= x && x <= rules::KNOB_LIMIT as f32 {
        let k = truncating_f32_to_u64(x) as u32;
        if k as f32 * BACK == value {
            return Some(k);
        }
    }
    None
}

// "Opening a setting gives those two whole numbers a (pitch) and b (radius), or refusal 8."
pub fn open(setting: Setting) -> Result<Opening, Refusal>
    ensures { OpeningCall setting (number_of result) (opening_a result) (opening_b result) }
{
    let a = open_value(setting.pitch).ok_or(Refusal::Setting)?;
    let b = open_value(setting.radius).ok_or(Refusal::Setting)?;
    Ok(Opening { a, b })
}

// Row 4: "clear-map slices unequal, empty or over" the limit.
#[tactic(auto, unfolding(rules::specs::Refusals::bad_slices))]
fn bad_slices(squares: usize, clear: usize) -> bool
    ensures { result ≡ bad_slices squares clear }
{
    squares != clear || squares == 0 || squares > rules::CLEAR_LIMIT
}

// "1 where d·a² ≥ b², else 0".
fn clear_byte(opening: Opening, d: u32) -> u8
    requires pitch { opening.a ≤ knob_limit }
    requires radius { opening.b ≤ knob_limit }
    ensures { result ≡ clear_byte opening.a opening.b d }
{
    let pitch = u64::from(opening.a);
    let radius = u64::from(opening.b);
    u8::from(u64::from(d) * (pitch * pitch) >= radius * radius)
}

// Fills the clear map: every byte by its squared distance.
fn fill(opening: Opening, squares: &[u32], clear: &mut [u8])
    requires pitch { opening.a ≤ knob_limit }
    requires radius { opening.b ≤ knob_limit }
    requires as_long { length squares.now ≡ length clear.old }
    ensures { Cleared opening.a opening.b squares.now clear.new }
{
    for (i, d) in squares.iter().enumerate() {
        clear[i] = clear_byte(opening, *d);
    }
}

// The clear map of a setting and a slice of squared distances, or its refusal: 4, then 8.
pub fn clear_map(setting: Setting, squares: &[u32], clear: &mut [u8]) -> Result<(), Refusal>
    ensures { ClearCall setting squares.now clear.old (number_of result) clear.new }
{
    if bad_slices(squares.len(), clear.len()) {
        return Err(Refusal::Buffers);
    }
    let Ok(opening) = open(setting) else {
        return Err(Refusal::Setting);
    };
    fill(opening, squares, clear);
    Ok(())
}
