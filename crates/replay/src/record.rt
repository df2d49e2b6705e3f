// A record of the list: 80 bytes, which are 20 words of 32 bits, the lowest byte first. Word 0 names the call, words 1
// to 12 are the floats of its input, 13 and 14 its double, 15 and 16 its lengths, 17 its level or ceiling, and words 18 and 19
// the sums over what the original gave. A record whose word 0 is 2^32 - 1 has the name of those that follow.
ghost use Rattle.std.specs.Prelude.{◌+◌, ◌<◌, ◌≤◌};

use super::sum::Sum;
use std::io;
use std::io::{ErrorKind, Read};

#[derive(Clone, Copy)]
pub struct Record {
    bytes: [u8; 80],
}

impl Record {
    // The next record of a list; none where fewer bytes than a record's are left.
    pub fn read<R: Read>(input: &mut R) -> io::Result<Option<Record>> {
        let mut bytes = [0u8; 80];
        match input.read_exact(&mut bytes) {
            Ok(()) => Ok(Some(Record { bytes })),
            Err(e) => {
                if e.kind() == ErrorKind::UnexpectedEof {
                    Ok(None)
                } else {
                    Err(e)
                }
            }
        }
    }

    // Word k.
    pub fn word(&self, k: usize) -> u32
        requires { k < 20 }
    {
        let at = 4 * k;
        u32::from_le_bytes([
            self.bytes[at],
            self.bytes[at + 1],
            self.bytes[at + 2],
            self.bytes[at + 3],
        ])
    }

    // Word k as a length.
    pub fn length(&self, k: usize) -> usize
        requires { k < 20 }
    {
        self.word(k) as usize
    }

    // Word k as a float, every NaN as one.
    pub fn float(&self, k: usize) -> f32
        requires { k < 20 }
    {
        std::num::f32_from_bits_with_nan(self.word(k))
    }

    // Its double, every NaN as one.
    pub fn double(&self) -> f64 {
        let low = self.word(13) as u64;
        let high = self.word(14) as u64;
        std::num::f64_from_bits_with_nan(low + high * 4294967296)
    }

    // As many floats, from word k on.
    pub fn floats<const N: usize>(&self, k: usize) -> [f32; N]
        requires { k + N ≤ 20 }
    {
        let mut all = [0.0f32; N];
        for i in 0..N {
            all[i] = self.float(k + i);
        }
        all
    }

    // What the original gave.
    pub fn given(&self) -> Sum {
        Sum {
            low: self.word(18),
            high: self.word(19),
        }
    }

    // Whether it names those that follow.
    pub fn is_title(&self) -> bool {
        self.word(0) == 0xffff_ffff
    }

    // That name: the bytes from the second word up to an end.
    pub fn title(&self) -> &[u8] {
        let end = self.length(19);
        if (4 <= end) & (end <= 80) {
            return &self.bytes[4..end];
        }
        &[]
    }
}
