// The lines of an input, gathered byte by byte. A line may be as long as it likes; as many of its bytes are kept as a line that is
// too long needs to be told from one that is not.
#![tactic(auto)]

ghost use Rattle.std.specs.Prelude.{◌≡◌, ◌+◌, ◌%◌, ◌^◌, [], ◌∷◌, ◌++◌};
ghost use Rattle.line_input.specs.Lines.{kept_of};

use arrayvec::ArrayVec;

// One byte more than a line of the text crates may have.
pub const KEPT: usize = 257;

// The line at hand: as many of its bytes as are kept, and its number, from 1 on.
#[derive(Drop)]
pub struct Line {
    pub kept: ArrayVec<u8, KEPT>,
    pub number: u64,
}

impl Line {
    // The first line begins.
    pub fn new() -> Line
        ensures kept { result.kept.items ≡ [] }
        ensures number { result.number ≡ 1 }
    {
        Line {
            kept: ArrayVec::new(),
            number: 1,
        }
    }

    // One byte more of the line; where there is no room it is left out.
    pub fn push(&mut self, b: u8)
        ensures kept { self.new.kept.items ≡ kept_of (self.old.kept.items ++ b ∷ []) }
        ensures number { self.new.number ≡ self.old.number }
    {
        let _ = self.kept.try_push(b);
    }

    // The next line begins. Numbers wrap.
    pub fn end(&mut self)
        ensures kept { self.new.kept.items ≡ [] }
        ensures number { self.new.number ≡ (self.old.number + 1) % 2 ^ 64 }
    {
        self.kept.clear();
        self.number = self.number.wrapping_add(1);
    }
}
