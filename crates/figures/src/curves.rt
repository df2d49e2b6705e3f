// The figures of roots and quads.
use super::shown::{At, Bits, Refused};
use quad_roots::Roots;
use std::io;

fn divide(rt: &impl Print, numer: f32, denom: f32, name: &str) -> io::Result<()> {
    match quad_roots::valid_unit_divide(numer, denom) {
        None => println!(rt; "unit divide {name}: none"),
        Some(r) => println!(rt; "unit divide {name}: {}", Bits(r)),
    }
}

fn roots(rt: &impl Print, a: f32, b: f32, c: f32, name: &str) -> io::Result<()> {
    match quad_roots::find_unit_quad_roots(a, b, c) {
        Roots::None => println!(rt; "roots of {name}: none"),
        Roots::One(r) => println!(rt; "roots of {name}: {}", Bits(r)),
        Roots::Two(r, s) => println!(rt; "roots of {name}: {} {}", Bits(r), Bits(s)),
    }
}

// The parameter of the maximum curvature and the point there, or the refusal's number.
fn curvature(rt: &impl Print, name: &str, src: &[f32]) -> io::Result<()> {
    print!(rt; "max curvature of {name}: ")?;
    match quads::find_quad_max_curvature(src) {
        Ok(t) => {
            print!(rt; "{} ", Bits(t))?;
            point(rt, src, t)
        }
        Err(why) => println!(rt; "{}", Refused(why)),
    }
}

fn point(rt: &impl Print, src: &[f32], t: f32) -> io::Result<()> {
    match quads::eval_quad_at(src, t) {
        Ok(p) => println!(rt; "{}", At(p)),
        Err(why) => println!(rt; "{}", Refused(why)),
    }
}

pub fn show(rt: &impl Print) -> io::Result<()> {
    divide(rt, 1.0, 2.0, "1, 2")?;
    divide(rt, -1.0, -2.0, "-1, -2")?;
    divide(rt, 2.0, 2.0, "2, 2")?;
    divide(rt, 0.0, 1.0, "0, 1")?;
    divide(rt, 1.0, -2.0, "1, -2")?;
    roots(rt, 8.0, -6.0, 1.0, "8, -6, 1")?;
    roots(rt, 4.0, -4.0, 1.0, "4, -4, 1")?;
    roots(rt, 0.0, 4.0, -1.0, "0, 4, -1")?;
    roots(rt, 1.0, 0.0, 1.0, "1, 0, 1")?;
    roots(rt, 0.0, 0.0, 1.0, "0, 0, 1")?;
    let src = [0.0, 0.0, 1.0, 1.0, 2.0, 0.0];
    curvature(rt, "(0,0) (1,1) (2,0), and the point there", &src)?;
    let far = 1.2676506002282294e30; // 2^100
    let src = [0.0, 0.0, far, far, 4.0 * far, 0.0];
    curvature(rt, "(0,0) (2^100,2^100) (2^102,0)", &src)
}
