// Exports the calls that answer with roots, each one call of the function of the same name of nyerdzumak, with its
// contract: nz_valid_unit_divide, nz_find_unit_quad_roots, nz_find_quad_extrema, nz_find_cubic_extrema,
// nz_find_cubic_inflections.
ghost use Rattle.std.specs.Prelude.{◌≡◌, length};
ghost use Rattle.std.proofs.lemmas.List.Edits.{sets};
ghost use Rattle.quad_roots.specs.Roots.{divided_of, values_of_divided, roots_of, values_of_roots};
ghost use Rattle.quads.specs.Quads.{quad_extrema};
ghost use Rattle.cubics.specs.Cubics.{cubic_extrema, values_of_inflections, inflections_answer, inflections_number};
ghost use Rattle.nyerdzumak.specs.Given.{first_or, count_or};

// numer / denom, if it lies strictly between 0 and 1: how many there are, 0 or 1.
#[unsafe(no_mangle)]
pub extern "C" fn nz_valid_unit_divide(numer: f32, denom: f32, root: &mut f32) -> u32
    ensures value { result ≡ length (values_of_divided (divided_of numer denom)) }
    ensures root { root.new ≡ first_or root.old (values_of_divided (divided_of numer denom)) }
{
    nyerdzumak::roots::nz_valid_unit_divide(numer, denom, root)
}

// The roots of a·t² + b·t + c that lie strictly between 0 and 1, rising: how many there are.
#[unsafe(no_mangle)]
pub extern "C" fn nz_find_unit_quad_roots(a: f32, b: f32, c: f32, roots: &mut [f32; 2]) -> u32
    ensures value { result ≡ length (values_of_roots (roots_of a b c)) }
    ensures roots { roots.new ≡ sets roots.old 0 (values_of_roots (roots_of a b c)) }
{
    nyerdzumak::roots::nz_find_unit_quad_roots(a, b, c, roots)
}

// Where a quad turns back along an axis on which its points are a, b and c: in how many places, 0 or 1.
#[unsafe(no_mangle)]
pub extern "C" fn nz_find_quad_extrema(a: f32, b: f32, c: f32, root: &mut f32) -> u32
    ensures value { result ≡ length (values_of_divided (quad_extrema a b c)) }
    ensures root { root.new ≡ first_or root.old (values_of_divided (quad_extrema a b c)) }
{
    nyerdzumak::roots::nz_find_quad_extrema(a, b, c, root)
}

// Where a cubic turns back along an axis on which its points are a, b, c and d: in how many places.
#[unsafe(no_mangle)]
pub extern "C" fn nz_find_cubic_extrema(a: f32, b: f32, c: f32, d: f32, roots: &mut [f32; 2]) -> u32
    ensures value { result ≡ length (values_of_roots (cubic_extrema a b c d)) }
    ensures roots { roots.new ≡ sets roots.old 0 (values_of_roots (cubic_extrema a b c d)) }
{
    nyerdzumak::roots::nz_find_cubic_extrema(a, b, c, d, roots)
}

// Where the curvature of a cubic of eight lent numbers is zero.
#[unsafe(no_mangle)]
pub extern "C" fn nz_find_cubic_inflections(
    src: &[f32],
    roots: &mut [f32; 2],
    count: &mut u32,
) -> u32
    ensures value { result ≡ inflections_number src.now }
    ensures roots { roots.new ≡ sets roots.old 0 (values_of_inflections (inflections_answer src.now)) }
    ensures count { count.new ≡ count_or count.old (inflections_answer src.now) }
{
    nyerdzumak::roots::nz_find_cubic_inflections(src, roots, count)
}
