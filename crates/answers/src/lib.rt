// What a call answers: a value, or a refusal, which has a number in docs/RULES.md, "Answer numbers". A caller that has numbers
// and lent memory alone, as C has, is given the number, and the value where there is one.
#![tactic(auto)]

ghost use Rattle.std.specs.Prelude.{◌≡◌, ◌<◌, ◌↔◌, ℕ, IsOk};
ghost use Rattle.answers.specs.Answers.{number_of, value_or};

// Why a call does nothing: an enum of the crate that refuses, with derives.
pub trait Numbered: Copy {
    ghost number_of: { Self → ℕ };

    // Its number.
    fn number(self) -> u32
        ensures { result ≡ number_of self };

    // 0 stands for what is not refused.
    ghost above_zero: { (why : Self) → 0 < number_of why };
}

// The answer's number: 0 exactly where it is not refused.
pub fn number<T: Copy, E: Numbered>(answer: Result<T, E>) -> u32
    ensures value { result ≡ number_of E.number_of answer }
    ensures answered { (result ≡ 0) ↔ IsOk answer }
{
    match answer {
        Ok(_) => 0,
        Err(why) => why.number(),
    }
}

// Stores the value, where there is one; and the answer's number.
pub fn give<T: Copy, E: Numbered>(answer: Result<T, E>, out: &mut T) -> u32
    ensures value { result ≡ number_of E.number_of answer }
    ensures out { out.new ≡ value_or out.old answer }
{
    match answer {
        Ok(value) => {
            *out = value;
            0
        }
        Err(why) => why.number(),
    }
}
