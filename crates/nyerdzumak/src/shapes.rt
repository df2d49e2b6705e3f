// The calls on quads and cubics: lent numbers, x and y of each point, 6 for a quad and 8 for a cubic.
ghost use Rattle.std.specs.Prelude.{◌≡◌};
ghost use Rattle.quads.specs.Answers.{number_of_point, values_of_point};
ghost use Rattle.quads.specs.Answers.{eval_number, eval_values, chop_number, chop_buffer};
ghost use Rattle.quads.specs.Quads.{quad_of, quad_at, quad_tangent, quad_chop, curvature_number, curvature_values};
ghost use Rattle.cubics.specs.Cubics.{cubic_of, cubic_at, cubic_tangent, cubic_chop};
ghost use Rattle.nyerdzumak.specs.Given.{first_or, filled_or};

use answers::Numbered;
use point::Point;
use quads::Refusal;

// Stores a point, if there is one; and the answer's number. Not by `answers::give`: a point is stored as two numbers.
#[tactic(auto, unfolding(point::specs::Numbers::flat))]
fn give(answer: Result<Point, Refusal>, out: &mut [f32; 2]) -> u32
    ensures value { result ≡ number_of_point answer }
    ensures out { out.new ≡ filled_or out.old (values_of_point answer) }
{
    match answer {
        Ok(p) => {
            *out = [p.x, p.y];
            0
        }
        Err(why) => why.number(),
    }
}

// The point of a quad at t.
pub fn nz_eval_quad_at(src: &[f32], t: f32, out: &mut [f32; 2]) -> u32
    ensures value { result ≡ eval_number 6 t src.now }
    ensures out { out.new ≡ filled_or out.old (eval_values 6 t src.now (quad_at (quad_of src.now) t)) }
{
    give(quads::eval_quad_at(src, t), out)
}

// The tangent of a quad at t, as long as the derivative; at an end whose control point coincides with it, the chord.
pub fn nz_eval_quad_tangent_at(src: &[f32], t: f32, out: &mut [f32; 2]) -> u32
    ensures value { result ≡ eval_number 6 t src.now }
    ensures out { out.new ≡ filled_or out.old
        (eval_values 6 t src.now (quad_tangent (quad_of src.now) t)) }
{
    give(quads::eval_quad_tangent_at(src, t), out)
}

// The point of a cubic at t.
pub fn nz_eval_cubic_pos_at(src: &[f32], t: f32, out: &mut [f32; 2]) -> u32
    ensures value { result ≡ eval_number 8 t src.now }
    ensures out { out.new ≡ filled_or out.old
        (eval_values 8 t src.now (cubic_at (cubic_of src.now) t)) }
{
    give(cubics::eval_cubic_pos_at(src, t), out)
}

// The tangent of a cubic at t, a third as long as the derivative; at an end whose control point coincides with it,
// towards the next control point, or else the chord.
pub fn nz_eval_cubic_tangent_at(src: &[f32], t: f32, out: &mut [f32; 2]) -> u32
    ensures value { result ≡ eval_number 8 t src.now }
    ensures out { out.new ≡ filled_or out.old
        (eval_values 8 t src.now (cubic_tangent (cubic_of src.now) t)) }
{
    give(cubics::eval_cubic_tangent_at(src, t), out)
}

// Cuts a quad at t, and stores the five points of the two quads.
pub fn nz_chop_quad_at(src: &[f32], t: f32, dst: &mut [f32]) -> u32
    ensures value { result ≡ chop_number 6 10 t src.now dst.old }
    ensures buffer { dst.new ≡ chop_buffer 6 10 t src.now dst.old (quad_chop (quad_of src.now) t) }
{
    answers::number(quads::chop_quad_at(src, t, dst))
}

// Cuts a cubic at t, and stores the seven points of the two cubics.
pub fn nz_chop_cubic_at2(src: &[f32], t: f32, dst: &mut [f32]) -> u32
    ensures value { result ≡ chop_number 8 14 t src.now dst.old }
    ensures buffer { dst.new ≡ chop_buffer 8 14 t src.now dst.old (cubic_chop (cubic_of src.now) t) }
{
    answers::number(cubics::chop_cubic_at2(src, t, dst))
}

// Where the curvature of a quad is greatest: 0, 1, or a quotient.
pub fn nz_find_quad_max_curvature(src: &[f32], t: &mut f32) -> u32
    ensures value { result ≡ curvature_number src.now }
    ensures t { t.new ≡ first_or t.old (curvature_values src.now) }
{
    answers::give(quads::find_quad_max_curvature(src), t)
}
