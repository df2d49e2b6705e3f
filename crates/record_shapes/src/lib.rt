// Conics and transforms as records keep them: each number as the 32 bits of its f32. Bits become a conic of the exact rule or
// a transform, and these become bits again; what comes back as it was is told in specs/Laws.antt. Each is a function and no `From`,
// since none of the types is of this crate.
#![tactic(auto)]

ghost use Rattle.std.specs.Prelude.{◌≡◌};
ghost use Rattle.std.specs.Float.{binary32};
ghost use Rattle.std.specs.Float.Ieee.{of_bits, to_bits};
ghost use Rattle.record_shapes.specs.Bits.{conic_of_bits, bits_of_conic, transform_of_bits, bits_of_transform};

use conic::{Conic, Rule};
use point::Point;
use records::{ConicBits, TransformBits};
use transform::Transform;

// The float of a pattern; each NaN's gives the same NaN.
pub fn float_of_bits(b: u32) -> f32
    ensures { result ≡ of_bits binary32 b }
{
    std::num::f32_from_bits_with_nan(b)
}

// The pattern of a float; NaN has the quiet one's.
pub fn bits_of_float(x: f32) -> u32
    ensures { result ≡ to_bits binary32 x }
{
    std::num::f32_to_bits_with_nan(x)
}

// These four are functions and not `From`: both types of each are other crates'.

// The conic of these bits, by the exact rule.
#[tactic(auto, unfolding(crate::specs::Bits::conic_of_bits))]
pub fn conic_of_bits(b: ConicBits) -> Conic
    ensures { result ≡ conic_of_bits b }
{
    let p0 = Point {
        x: float_of_bits(b.x0),
        y: float_of_bits(b.y0),
    };
    let p1 = Point {
        x: float_of_bits(b.x1),
        y: float_of_bits(b.y1),
    };
    let p2 = Point {
        x: float_of_bits(b.x2),
        y: float_of_bits(b.y2),
    };
    let weight = float_of_bits(b.weight);
    Conic::new(p0, p1, p2, weight, Rule::Exact)
}

// The bits of a conic, whatever its rule, which is left out.
#[tactic(auto, unfolding(crate::specs::Bits::bits_of_conic))]
pub fn bits_of_conic(c: Conic) -> ConicBits
    ensures { result ≡ bits_of_conic c }
{
    ConicBits {
        x0: bits_of_float(c.p0.x),
        y0: bits_of_float(c.p0.y),
        x1: bits_of_float(c.p1.x),
        y1: bits_of_float(c.p1.y),
        x2: bits_of_float(c.p2.x),
        y2: bits_of_float(c.p2.y),
        weight: bits_of_float(c.weight),
    }
}

// The transform of these bits.
#[tactic(auto, unfolding(crate::specs::Bits::transform_of_bits))]
pub fn transform_of_bits(b: TransformBits) -> Transform
    ensures { result ≡ transform_of_bits b }
{
    Transform {
        sx: float_of_bits(b.sx),
        kx: float_of_bits(b.kx),
        ky: float_of_bits(b.ky),
        sy: float_of_bits(b.sy),
        tx: float_of_bits(b.tx),
        ty: float_of_bits(b.ty),
    }
}

// The bits of a transform.
#[tactic(auto, unfolding(crate::specs::Bits::bits_of_transform))]
pub fn bits_of_transform(t: Transform) -> TransformBits
    ensures { result ≡ bits_of_transform t }
{
    TransformBits {
        sx: bits_of_float(t.sx),
        ky: bits_of_float(t.ky),
        kx: bits_of_float(t.kx),
        sy: bits_of_float(t.sy),
        tx: bits_of_float(t.tx),
        ty: bits_of_float(t.ty),
    }
}
