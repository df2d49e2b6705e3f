// A journal's bytes, gathered record by record. A record is judged each time that a byte of it comes: until it is whole or refused
// it is cut off, and 34 bytes decide, so that no more are kept however long the journal is. The loop over the pieces is not that
// of `dates`: a refused record ends it, and an input that fails is told and no error.
use super::text;
use arrayvec::ArrayVec;
use records::{Found, Record};
use std::io;
use std::io::Read;
use std::ops::ControlFlow;

const ROOM: usize = Record::MAX_RECORD as usize;

// The bytes of the record at hand, and its offset.
#[derive(Drop)]
struct Window {
    kept: ArrayVec<u8, ROOM>,
    offset: u64,
}

impl Window {
    // One byte more of the record at hand. Writes what the kept bytes come to, if they come to something; behind a refused record
    // nothing is read.
    fn gather(&mut self, rt: &impl Print, b: u8) -> io::Result<ControlFlow<()>> {
        if self.kept.try_push(b).is_err() {
            return Ok(ControlFlow::Continue(()));
        }
        match records::read(&self.kept, 0) {
            Ok(Found::Whole(r, _)) => {
                if let Some(payload) = self.kept.get(6..) {
                    text::record(rt, r.kind(), payload)?;
                }
                self.offset = self.offset.wrapping_add(self.kept.len() as u64);
                self.kept.clear();
            }
            Ok(Found::End | Found::Short) => {}
            Err(refused) => {
                text::refused(rt, refused.why, self.offset)?;
                return Ok(ControlFlow::Break(()));
            }
        }
        Ok(ControlFlow::Continue(()))
    }
}

// Prints the journal that a reader gives. A proved loop has to end, and nothing says that the input does: its turns are counted
// by a number that no input uses up. A journal that can't be read has no last line, and why is told by its name.
pub fn print<R: Read>(rt: &(impl Print + Eprint), input: &mut R, name: &str) -> io::Result<()> {
    let mut window = Window {
        kept: ArrayVec::new(),
        offset: 0,
    };
    let mut piece = [0u8; 4096];
    for _ in 0..u64::MAX {
        let n = match input.read(&mut piece) {
            Ok(n) => n,
            Err(e) => {
                text::failed(rt, name, e);
                return Ok(());
            }
        };
        if n == 0 {
            break;
        }
        for b in &piece[..n] {
            if window.gather(rt, *b)?.is_break() {
                return Ok(());
            }
        }
    }
    text::ended(rt, window.kept.is_empty())
}
