// The figures of the transforms.
use super::shown::{At, Bits, Told};
use answers::Numbered;
use point::Point;
use std::io;
use transform::Transform;

fn product(rt: &impl Print, name: &str, a: Transform, b: Transform) -> io::Result<()> {
    println!(rt; "{name} {}", Told(a.pre_concat(b)))
}

fn mapped(rt: &impl Print, name: &str, ts: Transform, p: Point) -> io::Result<()> {
    println!(rt; "{name} {}", At(ts.map_point(p)))
}

// The answer's number, then the buffer.
fn mapped_numbers(rt: &impl Print, name: &str, ts: Transform, x: f32, y: f32) -> io::Result<()> {
    let mut numbers = [x, y];
    let number = answers::number(mapping::map_numbers(ts, &mut numbers));
    println!(rt; "{name} {number} {} {}", Bits(numbers[0]), Bits(numbers[1]))
}

// The answer's number, then the six numbers of the inverse in the order of `from_row`.
fn inverted(rt: &impl Print, name: &str, ts: Transform) -> io::Result<()> {
    match ts.invert() {
        Ok(inverse) => println!(rt; "{name} 0 {}", Told(inverse)),
        Err(why) => println!(rt; "{name} {}", why.number()),
    }
}

fn mappings(rt: &impl Print) -> io::Result<()> {
    mapped(
        rt,
        "from_row(1,2,3,4,5,6) maps (1,1) to:",
        Transform::from_row(1.0, 2.0, 3.0, 4.0, 5.0, 6.0),
        Point::from_xy(1.0, 1.0),
    )?;
    mapped_numbers(
        rt,
        "the same in a buffer of numbers:",
        Transform::from_row(1.0, 2.0, 3.0, 4.0, 5.0, 6.0),
        1.0,
        1.0,
    )
}

fn inverses(rt: &impl Print) -> io::Result<()> {
    inverted(
        rt,
        "from_row(2,0,0,4,6,8) inverted:",
        Transform::from_row(2.0, 0.0, 0.0, 4.0, 6.0, 8.0),
    )?;
    inverted(
        rt,
        "from_row(1,-0,-0,1,-0,-0) inverted:",
        Transform::from_row(1.0, -0.0, -0.0, 1.0, -0.0, -0.0),
    )?;
    inverted(
        rt,
        "from_row(1,1,-1,1,0,0) inverted:",
        Transform::from_row(1.0, 1.0, -1.0, 1.0, 0.0, 0.0),
    )?;
    inverted(
        rt,
        "from_row(1,1,-1,2,0,0) inverted:",
        Transform::from_row(1.0, 1.0, -1.0, 2.0, 0.0, 0.0),
    )?;
    inverted(
        rt,
        "from_row(0,2^100,2^100,0,0,0) inverted:",
        Transform::from_row(
            0.0,
            1.2676506002282294e30,
            1.2676506002282294e30,
            0.0,
            0.0,
            0.0,
        ),
    )
}

fn refused_skewed(rt: &impl Print) -> io::Result<()> {
    inverted(
        rt,
        "from_row(1,1,1,1,0,0) inverted:",
        Transform::from_row(1.0, 1.0, 1.0, 1.0, 0.0, 0.0),
    )?;
    inverted(
        rt,
        "from_row(1,1,1,1,infinity,0) inverted:",
        Transform::from_row(1.0, 1.0, 1.0, 1.0, f32::INFINITY, 0.0),
    )?;
    inverted(
        rt,
        "from_row(0,0.5,0.5,0,2^127,0) inverted:",
        Transform::from_row(0.0, 0.5, 0.5, 0.0, 1.7014118346046923e38, 0.0),
    )
}

fn refused_unskewed(rt: &impl Print) -> io::Result<()> {
    inverted(
        rt,
        "from_scale(0,1) inverted:",
        Transform::from_scale(0.0, 1.0),
    )?;
    inverted(
        rt,
        "from_row(0,0,0,0,0,0) inverted:",
        Transform::from_row(0.0, 0.0, 0.0, 0.0, 0.0, 0.0),
    )?;
    inverted(
        rt,
        "from_scale(2^-128,1) inverted:",
        Transform::from_scale(2.938735877055719e-39, 1.0),
    )?;
    inverted(
        rt,
        "from_row(2^-100,0,0,1,2^100,0) inverted:",
        Transform::from_row(
            7.888609052210118e-31,
            0.0,
            0.0,
            1.0,
            1.2676506002282294e30,
            0.0,
        ),
    )?;
    inverted(
        rt,
        "from_translate(0,infinity) inverted:",
        Transform::from_translate(0.0, f32::INFINITY),
    )
}

fn products(rt: &impl Print) -> io::Result<()> {
    product(
        rt,
        "from_row(1,2,3,4,5,6) times from_row(2,1,1,2,1,1):",
        Transform::from_row(1.0, 2.0, 3.0, 4.0, 5.0, 6.0),
        Transform::from_row(2.0, 1.0, 1.0, 2.0, 1.0, 1.0),
    )?;
    product(
        rt,
        "from_skew(0.1,0.2) times from_scale(0.3,0.7):",
        Transform::from_skew(0.1, 0.2),
        Transform::from_scale(0.3, 0.7),
    )?;
    product(
        rt,
        "from_scale(0.1,0.2) times from_scale(0.3,0.7):",
        Transform::from_scale(0.1, 0.2),
        Transform::from_scale(0.3, 0.7),
    )
}

pub fn show(rt: &impl Print) -> io::Result<()> {
    mappings(rt)?;
    inverses(rt)?;
    refused_skewed(rt)?;
    refused_unskewed(rt)?;
    products(rt)
}
