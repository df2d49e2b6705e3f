// The figures of the float ground.
use super::shown::Bits;
use float_ground::{Narrowed, abs_f32, sqrt_f32, sqrt_f64};
use std::io;
use whole_roots::{read_alike, table_entry};

fn roots(rt: &impl Print) -> io::Result<()> {
    println!(rt; "root of 4: {}", Bits(sqrt_f32(4.0)))?;
    println!(rt; "root of 2: {}", Bits(sqrt_f32(2.0)))?;
    println!(rt; "root of 2^-149: {}", Bits(sqrt_f32(1.0e-45)))?;
    println!(rt; "root of -0: {}", Bits(sqrt_f32(-0.0)))?;
    let wide = std::num::f64_to_bits_with_nan(sqrt_f64(-0.0));
    println!(rt; "f64 root of -0: {wide:016x}")?;
    println!(rt; "stored root of 256 * 65536: {}", table_entry(256))?;
    println!(rt; "stored root of 257 * 65536: {}", table_entry(257))?;
    println!(rt; "stored root of 1023 * 65536: {}", table_entry(1023))?;
    println!(rt; "stored roots read alike: {}", read_alike())
}

fn narrowed(rt: &impl Print, name: &str, x: f64) -> io::Result<()> {
    let answer = float_ground::narrow(x);
    let loss = match answer {
        Narrowed::Exact(_) => "exact",
        Narrowed::Rounded(_) => "rounded",
        Narrowed::ToInfinity(_) => "gone to infinity",
    };
    println!(rt; "{name} narrowed: {} {loss}", Bits(answer.value()))
}

pub fn show(rt: &impl Print) -> io::Result<()> {
    roots(rt)?;
    narrowed(rt, "16777217", 16777217.0)?;
    narrowed(rt, "16777219", 16777219.0)?;
    narrowed(rt, "-2^-200", -6.223015277861142e-61)?;
    narrowed(rt, "-2^-1074", -5.0e-324)?;
    narrowed(rt, "2^-149", 1.401298464324817e-45)?;
    narrowed(rt, "3 * 2^-150", 2.1019476964872256e-45)?;
    narrowed(rt, "2^128", 3.402823669209385e38)?;
    narrowed(rt, "infinity", f64::INFINITY)?;
    narrowed(rt, "NaN", 0.0 / 0.0)?;
    println!(rt; "absolute value of -0: {}", Bits(abs_f32(-0.0)))
}
