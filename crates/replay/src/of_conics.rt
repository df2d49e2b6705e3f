// The calls on conics that give two halves, a level, or the whole cut of the crate's own choice.
use super::record::Record;
use super::sum;
use super::sum::Sum;
use nyerdzumak::conics;

// What the two halves give. This reads like `of_arrays::two`, with other places: a closure's bound that names
// a const parameter is not proved today.
pub fn chop(src: &[f32], weight: f32) -> Sum {
    let mut halves = sum::standing();
    let number = conics::nz_conic_chop(src, weight, &mut halves);
    Sum::START.word(number).floats(&halves)
}

// What the choice of a level gives.
pub fn compute_quad_pow2(r: &Record, src: &[f32]) -> Sum {
    let mut level = 77;
    let number = conics::nz_conic_compute_quad_pow2(
        src,
        r.float(7),
        r.float(8),
        r.word(17),
        &mut level,
    );
    Sum::START.word(number).word(level)
}

// What the cut of the crate's own choice gives.
pub fn auto_conic_to_quads(r: &Record, src: &[f32]) -> Sum {
    let mut out = sum::standing();
    let mut quads = 77;
    let number = conics::nz_auto_conic_to_quads(src, r.float(7), &mut out, &mut quads);
    Sum::START
        .word(number)
        .word((quads % 4294967296) as u32)
        .floats(&out)
}
