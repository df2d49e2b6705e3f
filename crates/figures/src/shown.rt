// How a figure is written. A float is the hexadecimal digits of its pattern, 8 for an f32, every NaN as one.
use answers::Numbered;
use point::Point;
use std::{fmt, io};
use transform::{Computed, Transform};

#[derive(Clone, Copy)]
pub struct Bits(pub f32);

impl fmt::Display for Bits {
    fn fmt<W: fmt::Write>(&self, f: &mut fmt::Formatter<W>) -> fmt::Result {
        write!(f, "{:08x}", std::num::f32_to_bits_with_nan(self.0))
    }
}

// Its coordinates.
#[derive(Clone, Copy)]
pub struct At(pub Point);

impl fmt::Display for At {
    fn fmt<W: fmt::Write>(&self, f: &mut fmt::Formatter<W>) -> fmt::Result {
        write!(f, "{} {}", Bits(self.0.x), Bits(self.0.y))
    }
}

// Its six numbers, in the order of `from_row`.
#[derive(Clone, Copy)]
pub struct Six(pub Transform);

impl fmt::Display for Six {
    fn fmt<W: fmt::Write>(&self, f: &mut fmt::Formatter<W>) -> fmt::Result {
        write!(f, "{} {} ", Bits(self.0.sx), Bits(self.0.ky))?;
        write!(f, "{} {} ", Bits(self.0.kx), Bits(self.0.sy))?;
        write!(f, "{} {}", Bits(self.0.tx), Bits(self.0.ty))
    }
}

// Its six numbers, and whether a narrowing was not exact.
#[derive(Clone, Copy)]
pub struct Told(pub Computed);

impl fmt::Display for Told {
    fn fmt<W: fmt::Write>(&self, f: &mut fmt::Formatter<W>) -> fmt::Result {
        let flag = if self.0.rounded { " rounded" } else { "" };
        write!(f, "{}{flag}", Six(self.0.transform))
    }
}

// Writes a line: a name, and what is answered under it.
pub fn answered<T: fmt::Display + Drop, E: Numbered>(
    rt: &impl Print,
    name: &str,
    answer: Result<T, E>,
) -> io::Result<()> {
    match answer {
        Ok(x) => println!(rt; "{name}: {x}"),
        Err(why) => println!(rt; "{name}: {}", Refused(why)),
    }
}

// The number of a refusal.
#[derive(Clone, Copy)]
pub struct Refused<E>(pub E);

impl<E: Numbered> fmt::Display for Refused<E> {
    fn fmt<W: fmt::Write>(&self, f: &mut fmt::Formatter<W>) -> fmt::Result {
        write!(f, "refusal {}", self.0.number())
    }
}
