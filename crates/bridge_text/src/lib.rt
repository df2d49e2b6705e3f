// A coordinate as text.
#![tactic(auto)]

ghost use Rattle.std.specs.Prelude.{◌≡◌};
ghost use Rattle.bridge_text.specs.Text.{text_of};

mod columns;
mod thousandths;

// v with three decimals, at the right of 14 columns: rounded to the nearest, and half a thousandth up in size.
// `beyond` where that is no number below 10^9. A number that is written as zero has no sign.
pub fn text(v: f32) -> [u8; 14]
    ensures { result ≡ text_of v }
{
    let n = thousandths::thousandths(v);
    if n < 1000000000000 {
        columns::columns((v < 0.0) & (0 < n), n)
    } else {
        *b"        beyond"
    }
}
