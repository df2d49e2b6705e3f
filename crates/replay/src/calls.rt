// Each number of the list, and the calls that it stands for. A list names a call by its number: an enum would be made of it here,
// only to be taken apart at once.
use super::record::Record;
use super::sum::Sum;
use super::{of_arrays, of_buffers, of_conics, of_ground, of_transforms, sum};
use nyerdzumak::{conics, roots, shapes, transforms};

// The calls on lent numbers that write into a buffer of any length.
fn into_buffers(call: u32, r: &Record, src: &[f32]) -> Sum {
    let weight = r.float(7);
    let t = r.float(9);
    let room = r.length(16);
    let level = r.word(17);
    match call {
        12 => of_buffers::lent(sum::standing::<{ of_buffers::CHOP }>(), room, |out| {
            shapes::nz_chop_quad_at(src, t, out)
        }),
        13 => of_buffers::lent(sum::standing::<{ of_buffers::CHOP }>(), room, |out| {
            shapes::nz_chop_cubic_at2(src, t, out)
        }),
        17 => of_buffers::lent(sum::standing::<{ of_buffers::CUT }>(), room, |out| {
            conics::nz_conic_chop_into_quads_pow2(src, weight, level, out)
        }),
        18 => of_buffers::lent(sum::standing::<{ of_buffers::CUT }>(), room, |out| {
            conics::nz_cut_in_order(src, weight, level, out)
        }),
        _ => of_buffers::lent(sum::standing::<{ of_buffers::CUT }>(), room, |out| {
            conics::nz_cut_in_order_both(src, weight, level, out)
        }),
    }
}

// The calls on lent numbers.
fn on_points(call: u32, r: &Record, src: &[f32]) -> Sum {
    let weight = r.float(7);
    let t = r.float(9);
    match call {
        7 => of_arrays::find_cubic_inflections(src),
        8 => of_arrays::two(|out| shapes::nz_eval_quad_at(src, t, out)),
        9 => of_arrays::two(|out| shapes::nz_eval_quad_tangent_at(src, t, out)),
        10 => of_arrays::two(|out| shapes::nz_eval_cubic_pos_at(src, t, out)),
        11 => of_arrays::two(|out| shapes::nz_eval_cubic_tangent_at(src, t, out)),
        14 => of_arrays::one(|t| shapes::nz_find_quad_max_curvature(src, t)),
        15 => of_conics::chop(src, weight),
        16 => of_conics::compute_quad_pow2(r, src),
        19 => of_conics::auto_conic_to_quads(r, src),
        _ => into_buffers(call, r, src),
    }
}

// The first numbers of a record are lent; all where there are fewer.
fn with_points(call: u32, r: &Record) -> Sum {
    let numbers: [f32; 12] = r.floats(1);
    on_points(call, r, &numbers[..r.length(15).min(12)])
}

// The calls for roots of numbers given one by one.
fn on_numbers(call: u32, r: &Record) -> Sum {
    let a = r.float(1);
    let b = r.float(2);
    let c = r.float(3);
    let d = r.float(4);
    match call {
        3 => of_arrays::one(|root| roots::nz_valid_unit_divide(a, b, root)),
        4 => of_arrays::two(|places| roots::nz_find_unit_quad_roots(a, b, c, places)),
        5 => of_arrays::one(|root| roots::nz_find_quad_extrema(a, b, c, root)),
        _ => of_arrays::two(|places| roots::nz_find_cubic_extrema(a, b, c, d, places)),
    }
}

// The calls on matrices.
fn on_matrices(call: u32, r: &Record) -> Sum {
    let a = r.floats(1);
    let b = r.floats(7);
    let x = r.float(7);
    let y = r.float(8);
    match call {
        20 => of_transforms::all_kinds(&a),
        21 => of_transforms::all_made(r.float(1), r.float(2)),
        22 => of_transforms::products(&a, &b),
        23 => of_transforms::scaled_and_moved(&a, x, y),
        24 => of_transforms::inverse(&a),
        25 => of_transforms::map_point(&a, x, y),
        _ => {
            let n = r.length(15);
            of_buffers::lent(of_transforms::eight(r, n), n, |numbers| {
                transforms::nz_transform_map_numbers(&a, numbers)
            })
        }
    }
}

// What the calls give that a record's first word names, on its input.
pub fn replayed(r: &Record) -> Sum {
    let call = r.word(0);
    match call {
        0 => of_ground::of_float(r.float(1)),
        1 => of_ground::of_double(r.double()),
        2 => of_ground::tests(r),
        3..=6 => on_numbers(call, r),
        20..=26 => on_matrices(call, r),
        7..=19 | 27 => with_points(call, r),
        _ => Sum::START,
    }
}
