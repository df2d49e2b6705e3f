// Exports the conics' calls, each one call of the function of the same name of nyerdzumak, with its contract:
// nz_between_product, nz_between_exact, nz_conic_chop, nz_conic_compute_quad_pow2, nz_conic_chop_into_quads_pow2,
// nz_cut_in_order, nz_cut_in_order_both, nz_auto_conic_to_quads.
ghost use Rattle.std.specs.Prelude.{◌≡◌, [], ◌∷◌, ◌≤◌, length};
ghost use Rattle.conic.specs.declared.Rule.TheVariants.{Product, Exact, BothAxes};
ghost use Rattle.conic.specs.Between.{product_test, exact_test};
ghost use Rattle.conic.specs.Chop.{chop_of, chop_by_rule};
ghost use Rattle.conic.specs.Level.{refuse_level, level_of};
ghost use Rattle.conic.specs.Refusal.{number_of_refusal, values_of_refusal};
ghost use Rattle.conic.specs.Rule.{X, Y};
ghost use Rattle.conic.specs.Source.{conic_of, short_source, refuse_source};
ghost use Rattle.conic_cut.specs.Auto.{auto_points};
ghost use Rattle.conic_cut.specs.Cut.{refuse_cut, cut_buffer, number_of_cut, values_of_cut};
ghost use Rattle.conic_cut.specs.Order.{OrderAlong};
ghost use Rattle.nyerdzumak.specs.Given.{first_or, filled_or, points_or, auto_from};
ghost use Rattle.nyerdzumak.specs.Lent.{half_numbers};

// The crate's between test: whether (a - b) * (c - b) is at most 0, as it is computed.
#[unsafe(no_mangle)]
pub extern "C" fn nz_between_product(a: f32, b: f32, c: f32) -> bool
    ensures { result ≡ product_test a b c }
{
    nyerdzumak::conics::nz_between_product(a, b, c)
}

// Whether a ≤ b ≤ c or a ≥ b ≥ c.
#[unsafe(no_mangle)]
pub extern "C" fn nz_between_exact(a: f32, b: f32, c: f32) -> bool
    ensures { result ≡ exact_test a b c }
{
    nyerdzumak::conics::nz_between_exact(a, b, c)
}

// Halves a conic as the formulas say, with no correction, so that a rule has no part in it: x and y of three points and a
// weight, for each half.
#[unsafe(no_mangle)]
pub extern "C" fn nz_conic_chop(src: &[f32], weight: f32, halves: &mut [f32; 14]) -> u32
    ensures value { result ≡ refuse_source src.now number_of_refusal 0 }
    ensures halves { halves.new ≡ filled_or halves.old
        (refuse_source src.now values_of_refusal (half_numbers (chop_of (conic_of src.now weight Product)))) }
{
    nyerdzumak::conics::nz_conic_chop(src, weight, halves)
}

// The least level, from 1 on, at which the estimated distance of the quads from the conic is within the tolerance; at most the
// ceiling, 4 or 6, where it need not be.
#[unsafe(no_mangle)]
pub extern "C" fn nz_conic_compute_quad_pow2(
    src: &[f32],
    weight: f32,
    tolerance: f32,
    ceiling: u32,
    level: &mut u32,
) -> u32
    ensures value { result ≡ refuse_level ceiling (short_source src.now) (conic_of src.now weight Product) tolerance number_of_refusal 0 }
    ensures level { level.new ≡ first_or level.old
        (refuse_level ceiling (short_source src.now) (conic_of src.now weight Product) tolerance values_of_refusal
        (level_of ceiling (conic_of src.now weight Product) tolerance ∷ [])) }
{
    nyerdzumak::conics::nz_conic_compute_quad_pow2(src, weight, tolerance, ceiling, level)
}

// Cuts a conic into 2^level quads by the crate's own between test.
#[unsafe(no_mangle)]
pub extern "C" fn nz_conic_chop_into_quads_pow2(
    src: &[f32],
    weight: f32,
    level: u32,
    out: &mut [f32],
) -> u32
    ensures value { result ≡ refuse_cut level (length out.old) (short_source src.now) number_of_refusal 0 }
    ensures buffer { out.new ≡ cut_buffer chop_by_rule level (conic_of src.now weight Product)
        (short_source src.now) out.old }
{
    nyerdzumak::conics::nz_conic_chop_into_quads_pow2(src, weight, level, out)
}

// The same by the exact between test. From three finite points whose middle y lies between the end ys or equals one, the
// ys along the written points keep one direction, rising or falling, whatever the weight. The xs are not put in
// order.
#[unsafe(no_mangle)]
pub extern "C" fn nz_cut_in_order(src: &[f32], weight: f32, level: u32, out: &mut [f32]) -> u32
    ensures value { result ≡ refuse_cut level (length out.old) (short_source src.now) number_of_refusal 0 }
    ensures buffer { out.new ≡ cut_buffer chop_by_rule level (conic_of src.now weight Exact)
        (short_source src.now) out.old }
    ensures order { 6 ≤ length src.now → OrderAlong Y level (conic_of src.now weight Exact) out.old
        out.new }
{
    nyerdzumak::conics::nz_cut_in_order(src, weight, level, out)
}

// The same, and the xs are kept in order as the ys are. From three finite points the xs along the written points keep one
// direction where the middle x lies between the end xs or equals one, and so do the ys where the middle y does.
#[unsafe(no_mangle)]
pub extern "C" fn nz_cut_in_order_both(src: &[f32], weight: f32, level: u32, out: &mut [f32]) -> u32
    ensures value { result ≡ refuse_cut level (length out.old) (short_source src.now) number_of_refusal 0 }
    ensures buffer { out.new ≡ cut_buffer chop_by_rule level (conic_of src.now weight BothAxes)
        (short_source src.now) out.old }
    ensures order_x { 6 ≤ length src.now → OrderAlong X level (conic_of src.now weight BothAxes) out.old
        out.new }
    ensures order_y { 6 ≤ length src.now → OrderAlong Y level (conic_of src.now weight BothAxes) out.old
        out.new }
{
    nyerdzumak::conics::nz_cut_in_order_both(src, weight, level, out)
}

// The crate's own choice: the cut by its own between test at the level that a tolerance of a quarter chooses, by its own
// ceiling.
#[unsafe(no_mangle)]
pub extern "C" fn nz_auto_conic_to_quads(
    src: &[f32],
    weight: f32,
    out: &mut [f32; 128],
    quads: &mut usize,
) -> u32
    ensures value { result ≡ number_of_cut (auto_from src.now weight) }
    ensures out { out.new ≡ points_or out.old (auto_from src.now weight)
        (auto_points (conic_of src.now weight Product)) }
    ensures quads { quads.new ≡ first_or quads.old (values_of_cut (auto_from src.now weight)) }
{
    nyerdzumak::conics::nz_auto_conic_to_quads(src, weight, out, quads)
}
