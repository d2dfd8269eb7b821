ghost use Rattle.std.specs.Prelude.{◌≡◌, min, take, ◌+◌, IfSome};
ghost use Rattle.std.specs.Option.{option_map};
ghost use Rattle.host_protocol.specs.Numbers.{number_of, count_of, digits_in, value_of};

/// The most digits of a number.
const MAX_DIGITS: usize = 10;

/// The greatest number.
const MAX_NUMBER: u64 = 4294967295;

/// The number that a word is: one to ten decimal digits, for a number of 32 bits.
pub fn number(word: &[u8]) -> Option<u32>
    ensures { result ≡ number_of word.now }
{
    let (number, digits) = leading_number(word)?;
    if digits == word.len() {
        Some(number)
    } else {
        None
    }
}

/// The number that the digits at the beginning of a text are, and how many they are.
#[inline(always)]
pub fn leading_number(text: &[u8]) -> Option<(u32, usize)>
    ensures number { option_map (λ found. found.0) result ≡ number_of (take (digits_in text.now) text.now) }
    ensures digits { IfSome result (λ found. found.1 ≡ digits_in text.now) }
{
    let (value, digits) = leading_digits(text);
    if digits == 0 || digits > MAX_DIGITS {
        return None;
    }
    if value > MAX_NUMBER {
        return None;
    }
    Some((value as u32, digits))
}

/// What the digits at the beginning of a text stand for, and how many they are: eleven of them where they are more.
#[inline(always)]
fn leading_digits(text: &[u8]) -> (u64, usize)
    ensures digits { result.1 ≡ min (MAX_DIGITS + 1) (digits_in text.now) }
    ensures value { result.0 ≡ value_of (take result.1 text.now) }
{
    let most = text.len().min(MAX_DIGITS + 1);
    let mut value: u64 = 0;
    let mut digits = 0;
    while digits < most && text[digits].is_ascii_digit() {
        value = value * 10 + u64::from(text[digits] - b'0');
        digits += 1;
    }
    (value, digits)
}

/// The count that a word is: a number that is not 0.
pub fn count(word: &[u8]) -> Option<u32>
    ensures { result ≡ count_of word.now }
{
    number(word).filter(|n| *n > 0)
}
