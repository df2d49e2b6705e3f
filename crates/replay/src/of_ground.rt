// The calls of the float ground, and those that test floats.
use super::record::Record;
use super::sum::Sum;
use nyerdzumak::{conics, ground};

// What the calls on an f32 give.
pub fn of_float(x: f32) -> Sum {
    Sum::START
        .flag(ground::nz_is_finite_f32(x))
        .float(ground::nz_abs_f32(x))
        .double(ground::nz_widen(x))
        .float(ground::nz_sqrt_f32(x))
}

// What the calls on an f64 give.
pub fn of_double(x: f64) -> Sum {
    let mut loss = 77;
    let told = ground::nz_narrow_told(x, &mut loss);
    Sum::START
        .flag(ground::nz_is_finite_f64(x))
        .float(ground::nz_narrow(x))
        .float(told)
        .word(loss)
        .double(ground::nz_sqrt_f64(x))
}

// What the tests give.
pub fn tests(r: &Record) -> Sum {
    let a = r.float(1);
    let b = r.float(2);
    let c = r.float(3);
    Sum::START
        .flag(ground::nz_point_is_finite(a, b))
        .flag(conics::nz_between_product(a, b, c))
        .flag(conics::nz_between_exact(a, b, c))
}
