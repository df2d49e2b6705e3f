// A number in columns: blanks, a minus, the digits before the point, the point and three digits.
ghost use Rattle.std.specs.Prelude.{◌≡◌, ◌<◌};
ghost use Rattle.bridge_text.specs.Text.{digit_of, mark_of, columns_of};

// The digit of n whose weight is p.
fn digit(n: u64, p: u64) -> u8
    requires { 0 < p }
    ensures { result ≡ digit_of n p }
{
    48 + (n / p % 10) as u8
}

// The column of weight p, before the point: a digit, or in front of the first digit the minus, or a blank. The digit
// of weight 1000 is always there.
fn mark(negative: bool, n: u64, p: u64) -> u8
    requires { 0 < p }
    ensures { result ≡ mark_of negative n p }
{
    let m = n.max(1000);
    if p <= m {
        return digit(n, p);
    }
    if negative & (p / 10 <= m) { b'-' } else { b' ' }
}

// n thousandths in 14 columns, with a minus where that is asked for. Each is written out, since a loop over the weights would
// have to leave out the point and to know the columns before it.
pub fn columns(negative: bool, n: u64) -> [u8; 14]
    ensures { result ≡ columns_of negative n }
{
    [
        mark(negative, n, 1000000000000),
        mark(negative, n, 100000000000),
        mark(negative, n, 10000000000),
        mark(negative, n, 1000000000),
        mark(negative, n, 100000000),
        mark(negative, n, 10000000),
        mark(negative, n, 1000000),
        mark(negative, n, 100000),
        mark(negative, n, 10000),
        mark(negative, n, 1000),
        b'.',
        digit(n, 100),
        digit(n, 10),
        digit(n, 1),
    ]
}
