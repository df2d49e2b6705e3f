// The calls that answer with roots: how many, and where. A place for which there is no root keeps its contents.
ghost use Rattle.std.specs.Prelude.{◌≡◌, length};
ghost use Rattle.std.proofs.lemmas.List.Edits.{sets};
ghost use Rattle.quad_roots.specs.Roots.{divided_of, values_of_divided, roots_of, values_of_roots};
ghost use Rattle.quads.specs.Quads.{quad_extrema};
ghost use Rattle.cubics.specs.Cubics.{cubic_extrema, number_of_inflections, values_of_inflections, inflections_answer, inflections_number};
ghost use Rattle.nyerdzumak.specs.Given.{first_or, count_or};

use answers::Numbered;
use cubics::Refusal;
use quad_roots::Roots;

// Stores what was found, and says how many.
fn give(found: Roots, roots: &mut [f32; 2]) -> u32
    ensures value { result ≡ length (values_of_roots found) }
    ensures roots { roots.new ≡ sets roots.old 0 (values_of_roots found) }
{
    let count = found.count();
    match found {
        Roots::None => count,
        Roots::One(r) => {
            roots[0] = r;
            count
        }
        Roots::Two(r, s) => {
            roots[0] = r;
            roots[1] = s;
            count
        }
    }
}

// The same of one root or none.
fn give_one(found: Option<f32>, root: &mut f32) -> u32
    ensures value { result ≡ length (values_of_divided found) }
    ensures root { root.new ≡ first_or root.old (values_of_divided found) }
{
    let count = quad_roots::quotient_count(found);
    match found {
        None => count,
        Some(r) => {
            *root = r;
            count
        }
    }
}

// numer / denom, if it lies strictly between 0 and 1: how many there are, 0 or 1.
pub fn nz_valid_unit_divide(numer: f32, denom: f32, root: &mut f32) -> u32
    ensures value { result ≡ length (values_of_divided (divided_of numer denom)) }
    ensures root { root.new ≡ first_or root.old (values_of_divided (divided_of numer denom)) }
{
    give_one(quad_roots::valid_unit_divide(numer, denom), root)
}

// The roots of a·t² + b·t + c that lie strictly between 0 and 1, rising: how many there are.
pub fn nz_find_unit_quad_roots(a: f32, b: f32, c: f32, roots: &mut [f32; 2]) -> u32
    ensures value { result ≡ length (values_of_roots (roots_of a b c)) }
    ensures roots { roots.new ≡ sets roots.old 0 (values_of_roots (roots_of a b c)) }
{
    give(quad_roots::find_unit_quad_roots(a, b, c), roots)
}

// Where a quad turns back along an axis on which its points are a, b and c: in how many places, 0 or 1.
pub fn nz_find_quad_extrema(a: f32, b: f32, c: f32, root: &mut f32) -> u32
    ensures value { result ≡ length (values_of_divided (quad_extrema a b c)) }
    ensures root { root.new ≡ first_or root.old (values_of_divided (quad_extrema a b c)) }
{
    give_one(quads::find_quad_extrema(a, b, c), root)
}

// Where a cubic turns back along an axis on which its points are a, b, c and d: in how many places.
pub fn nz_find_cubic_extrema(a: f32, b: f32, c: f32, d: f32, roots: &mut [f32; 2]) -> u32
    ensures value { result ≡ length (values_of_roots (cubic_extrema a b c d)) }
    ensures roots { roots.new ≡ sets roots.old 0 (values_of_roots (cubic_extrema a b c d)) }
{
    give(cubics::find_cubic_extrema(a, b, c, d), roots)
}

// Stores what was found and how many, unless it is a refusal; and the answer's number. Not by `answers::give`: places past those
// that were found keep their contents.
fn give_inflections(found: Result<Roots, Refusal>, roots: &mut [f32; 2], count: &mut u32) -> u32
    ensures value { result ≡ number_of_inflections found }
    ensures roots { roots.new ≡ sets roots.old 0 (values_of_inflections found) }
    ensures count { count.new ≡ count_or count.old found }
{
    match found {
        Ok(places) => {
            *count = give(places, roots);
            0
        }
        Err(why) => why.number(),
    }
}

// Where the curvature of a cubic of eight lent numbers is zero.
pub fn nz_find_cubic_inflections(src: &[f32], roots: &mut [f32; 2], count: &mut u32) -> u32
    ensures value { result ≡ inflections_number src.now }
    ensures roots { roots.new ≡ sets roots.old 0 (values_of_inflections (inflections_answer src.now)) }
    ensures count { count.new ≡ count_or count.old (inflections_answer src.now) }
{
    give_inflections(cubics::find_cubic_inflections(src), roots, count)
}
