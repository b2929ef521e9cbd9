// Millimetres on the screen: a squared distance from centre to centre, as a number and as a text.
#![tactic(auto)]

ghost use Rattle.std.specs.Prelude.{◌≡◌, true, IfOk, IfErr, OnErr};
ghost use Rattle.rules.specs.Answers.{number_of, figure_out, text_count};
ghost use Rattle.rules.specs.Refusals.{bad_pitch};
ghost use Rattle.rules.specs.Millimetres.{word_32, Root, Told, centre_under, FigureCall, TextCall};

use figure::figure;
use figure_text::write;
use knob::open_value;
use root::root;
use rules::refusal::Refusal;

// "N the greatest whole number such that N² ≤ 16·d·a²": the distance in whole 1/256 mm, rounded down. Or its refusal: 8.
fn centre_root(d: u32, pitch: f32) -> Result<u32, Refusal>
    ensures root { IfOk result (λ n. Told pitch (centre_under d) (λ x. Root x n)) }
    ensures row { IfErr result (λ refusal. refusal ≡ Refusal.Setting) }
    ensures bad { OnErr result (bad_pitch (word_32 pitch) ≡ true) }
{
    let a = u64::from(open_value(pitch).ok_or(Refusal::Setting)?);
    Ok(root(16 * u64::from(d) * (a * a)))
}

// The distance as an f64, or its refusal: 8.
pub fn centre_figure(d: u32, pitch: f32) -> Result<f64, Refusal>
    ensures { FigureCall d pitch (number_of result) (figure_out result) }
{
    Ok(figure(centre_root(d, pitch)?))
}

// The distance as a text at the beginning of a buffer, and its length, or its refusal: 4, then 8.
#[tactic(auto, unfolding(rules::specs::Refusals::short_text))]
pub fn centre_text(d: u32, pitch: f32, text: &mut [u8]) -> Result<u32, Refusal>
    ensures { TextCall d pitch text.old (number_of result) (text_count result) text.new }
{
    if text.len() < rules::TEXT_BYTES {
        return Err(Refusal::Buffers);
    }
    Ok(write(centre_root(d, pitch)?, text))
}
