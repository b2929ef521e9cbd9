// The C functions of the static library. Each passes on to the entry that it wraps and has the same promise, by the same
// call of the rules; the C function answers the number of the entry's answer and writes its values, and a refusal writes
// nothing (a slice's stop is none: it writes its values). Kinds and refusals are numbers here and buffers stand apart, as C
// has them. `include/olavinthu.h` declares them.
#![tactic(auto)]

ghost use Rattle.std.specs.Prelude.{◌≡◌};
ghost use Rattle.rules.specs.Answers.{number_of};
ghost use Rattle.rules.specs.Calls.{buffers, PictureCall, CostCall, LaneCall, ChangeoverCall, OpeningCall, ClearCall};
ghost use Rattle.rules.specs.Millimetres.{FigureCall, TextCall};
ghost use Rattle.olavinthu.specs.Out.{Out, SliceTold};

use changeover::changeover;
use costs::cost_map;
use knob::{clear_map, open};
use lane::widest;
use maps::picture_map;
use millimetres::{centre_figure, centre_text};
use rules::Setting;
use rules::refusal::Refusal;
use slices::slice;

// The number of an answer that has no values: 0, or the refusal's.
fn number_of(answer: Result<(), Refusal>) -> u32
    ensures { result ≡ number_of answer }
{
    match answer {
        Ok(()) => 0,
        Err(refusal) => u32::from(refusal),
    }
}

// The map of a picture.
#[unsafe(no_mangle)]
pub extern "C" fn olv_map(
    w: u32,
    h: u32,
    kind: u32,
    d1: u32,
    d2: u32,
    picture: &[u8],
    distances: &mut [u32],
    sites: &mut [u32],
    scratch: &mut [u32],
) -> u32
    ensures { PictureCall w h kind d1 d2 picture.now
        (buffers distances.old sites.old scratch.old)
        result (buffers distances.new sites.new scratch.new) }
{
    number_of(picture_map(w, h, kind, d1, d2, picture, distances, sites, scratch))
}

// The map of a cost picture.
#[unsafe(no_mangle)]
pub extern "C" fn olv_cost_map(
    w: u32,
    h: u32,
    kind: u32,
    costs: &[u32],
    distances: &mut [u32],
    sites: &mut [u32],
    scratch: &mut [u32],
) -> u32
    ensures { CostCall w h kind costs.now
        (buffers distances.old sites.old scratch.old)
        result (buffers distances.new sites.new scratch.new) }
{
    number_of(cost_map(w, h, kind, costs, distances, sites, scratch))
}

// The widest lane: its number, and its width and how many cells it has where that is 0.
#[unsafe(no_mangle)]
pub extern "C" fn olv_lane(
    w: u32,
    h: u32,
    picture: &[u8],
    from: u32,
    to: u32,
    distances: &mut [u32],
    sites: &mut [u32],
    scratch: &mut [u32],
    path: &mut [u32],
    width: &mut u32,
    cells: &mut u32,
) -> u32
    ensures { LaneCall w h picture.now from to
        (buffers distances.old sites.old scratch.old) path.old
        result width.new cells.new
        (buffers distances.new sites.new scratch.new) path.new
        × Out result width.old width.new × Out result cells.old cells.new }
{
    match widest(w, h, picture, from, to, distances, sites, scratch, path) {
        Ok(course) => {
            *width = course.width;
            *cells = course.cells;
            0
        }
        Err(refusal) => u32::from(refusal), // width and cells stay
    }
}

// The changeover: its number, and p where it is 0.
#[unsafe(no_mangle)]
pub extern "C" fn olv_changeover(i: u32, u: u32, a: u32, b: u32, p: &mut i32) -> u32
    ensures { ChangeoverCall i u a b result p.new × Out result p.old p.new }
{
    match changeover(i, u, a, b) {
        Ok(found) => {
            *p = found;
            0
        }
        Err(refusal) => u32::from(refusal), // p stays
    }
}

// The opening of a setting: its number, and a and b where it is 0.
#[unsafe(no_mangle)]
pub extern "C" fn olv_open(setting: Setting, a: &mut u32, b: &mut u32) -> u32
    ensures { OpeningCall setting result a.new b.new × Out result a.old a.new
        × Out result b.old b.new }
{
    let answer = open(setting);
    let Ok(opening) = answer else {
        return u32::from(Refusal::Setting);
    };
    *a = opening.a;
    *b = opening.b;
    0
}

// The clear map.
#[unsafe(no_mangle)]
pub extern "C" fn olv_clear(setting: Setting, squares: &[u32], clear: &mut [u8]) -> u32
    ensures { ClearCall setting squares.now clear.old result clear.new }
{
    number_of(clear_map(setting, squares, clear))
}

// A squared distance from centre to centre in millimetres: its number, and the figure where it is 0.
#[unsafe(no_mangle)]
pub extern "C" fn olv_millimetres(d: u32, pitch: f32, out: &mut f64) -> u32
    ensures { FigureCall d pitch result out.new × Out result out.old out.new }
{
    match centre_figure(d, pitch) {
        Ok(figure) => {
            *out = figure;
            0
        }
        Err(refusal) => u32::from(refusal), // out stays
    }
}

// The same as a text: its number, and the text's length where it is 0.
#[unsafe(no_mangle)]
pub extern "C" fn olv_millimetres_text(d: u32, pitch: f32, text: &mut [u8], length: &mut u32) -> u32
    ensures { TextCall d pitch text.old result length.new text.new
        × Out result length.old length.new }
{
    match centre_text(d, pitch, text) {
        Ok(count) => {
            *length = count;
            0
        }
        Err(refusal) => u32::from(refusal), // length stays
    }
}

// A slice of a map: the number that refused or stopped it, 0 for none. How many lines it finished and the next line are
// written unless the start refuses.
#[unsafe(no_mangle)]
pub extern "C" fn olv_slice(
    w: u32,
    h: u32,
    kind: u32,
    line: u32,
    budget: u32,
    picture: &[u8],
    distances: &mut [u32],
    sites: &mut [u32],
    scratch: &mut [u32],
    finished: &mut u32,
    next: &mut u32,
) -> u32
    ensures { SliceTold w h kind line budget picture.now
        (buffers distances.old sites.old scratch.old)
        finished.old next.old result finished.new next.new
        (buffers distances.new sites.new scratch.new) }
{
    match slice(w, h, kind, line, budget, picture, distances, sites, scratch) {
        Ok(done) => {
            *finished = done.finished;
            *next = done.next;
            done.stop.map_or(0, u32::from)
        }
        Err(refusal) => u32::from(refusal), // finished and next stay
    }
}
