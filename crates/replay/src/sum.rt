// What an output comes to: two sums over its words, each with a multiplier of its own.
#[derive(Clone, Copy, PartialEq, Eq)]
pub struct Sum {
    pub low: u32,
    pub high: u32,
}

impl Sum {
    // Nothing yet.
    pub const START: Sum = Sum { low: 1, high: 1 };

    // With one word more.
    pub fn word(self, w: u32) -> Sum {
        let low = ((self.low as u64) * 69621 + (w as u64)) % 2147483647;
        let high = ((self.high as u64) * 40692 + (w as u64)) % 2147483629;
        Sum {
            low: low as u32,
            high: high as u32,
        }
    }

    // With a bool more.
    pub fn flag(self, is: bool) -> Sum {
        self.word(is as u32)
    }

    // With one float more, every NaN counted as the same.
    pub fn float(self, x: f32) -> Sum {
        self.word(std::num::f32_to_bits_with_nan(x))
    }

    // With a double more: the two halves of its pattern, the lower first.
    pub fn double(self, x: f64) -> Sum {
        let bits = std::num::f64_to_bits_with_nan(x);
        self.word((bits % 4294967296) as u32)
            .word((bits / 4294967296) as u32)
    }

    // With all of a buffer's floats more.
    pub fn floats(self, xs: &[f32]) -> Sum {
        let mut sum = self;
        for x in xs {
            sum = sum.float(*x);
        }
        sum
    }
}

// What stands in lent memory before a call: in place k the number 7000 + k.
pub fn standing<const N: usize>() -> [f32; N] {
    let mut xs = [0.0f32; N];
    let mut x = 7000.0f32;
    for place in xs.iter_mut() {
        *place = x;
        x = x + 1.0;
    }
    xs
}
