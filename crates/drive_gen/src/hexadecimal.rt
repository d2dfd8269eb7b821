ghost use Rattle.std.specs.Prelude.{◌≡◌, ◌<◌};
ghost use Rattle.drive_gen.specs.Summary.{digit_value, sum_of_bytes};

/// The sum of the bytes that these digits spell, two digits a byte.
pub fn sum_of_bytes(digits: &[u8]) -> u128
    ensures { result ≡ sum_of_bytes digits.now }
{
    let mut sum = 0;
    let mut rest = digits;
    while let [high, low, behind @ ..] = rest {
        sum += u128::from(16 * value(*high) + value(*low));
        rest = behind;
    }
    sum
}

/// What a digit stands for, 0 for a byte that is none.
fn value(digit: u8) -> u8
    ensures value { result ≡ digit_value digit }
    ensures small { result < 16 }
{
    match digit {
        b'0'..=b'9' => digit - b'0',
        b'a'..=b'f' => digit - b'a' + 10,
        _ => 0,
    }
}
