// Points mapped in place by a transform. Carried over from `transform.rs` of tiny-skia-path 0.12.0; the buffer of numbers is added.
#![tactic(auto)]

ghost use Rattle.std.specs.Prelude.{◌≡◌, map};
ghost use Rattle.transform.specs.Mapped.{map_point};
ghost use Rattle.mapping.specs.Numbers.{number_of_refusal, refusal_numbers};
ghost use Rattle.mapping.specs.Numbers.{number_of_mapping, mapping_answer, mapping_number, mapped_numbers};

use answers::Numbered;
use point::Point;
use transform::Transform;

// Why a buffer of numbers is not mapped.
#[derive(Clone, Copy, Debug, PartialEq, Eq)]
pub enum Refusal {
    // The numbers are no whole points.
    OddLength,
}

impl Numbered for Refusal {
    ghost number_of = { number_of_refusal };

    ghost above_zero = { refusal_numbers };

    fn number(self) -> u32 {
        match self {
            Refusal::OddLength => 9,
        }
    }
}

// Maps each point of a buffer that holds x, y, x, y. A buffer of odd length is left as it is. By places: of what `chunks_exact_mut`
// lends nothing is known after.
pub fn map_numbers(ts: Transform, numbers: &mut [f32]) -> Result<(), Refusal>
    ensures answer { result ≡ mapping_answer numbers.old }
    ensures number { number_of_mapping result ≡ mapping_number numbers.old }
    ensures buffer { numbers.new ≡ mapped_numbers ts numbers.old }
{
    if numbers.len() % 2 != 0 {
        return Err(Refusal::OddLength);
    }
    for i in 0..numbers.len() / 2 {
        let p = ts.map_point(Point {
            x: numbers[2 * i],
            y: numbers[2 * i + 1],
        });
        numbers[2 * i] = p.x;
        numbers[2 * i + 1] = p.y;
    }
    Ok(())
}

// Maps each point of a slice.
#[tactic(auto, using(crate::proofs::Mapped::mapped_next))]
pub fn map_points(ts: Transform, points: &mut [Point])
    ensures { points.new ≡ map (map_point ts) points.old }
{
    for p in points.iter_mut() {
        // as two numbers: a point that is copied whole is loaded slowly
        *p = ts.map_point(Point { x: p.x, y: p.y });
    }
}
