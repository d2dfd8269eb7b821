ghost use Rattle.std.specs.Prelude.{◌≡◌};
ghost use Rattle.desk_tasks.specs.Numbers.{wide_number_of, transaction_count_of};

use host_protocol::number;

/// The most transactions that may be drawn.
pub const MAX_TRANSACTIONS: u32 = 100000;

/// The number that a word is: one to twenty decimal digits, for a number of 64 bits. It is none for
/// any other word, and for a number above 18446744073709551615.
#[tactic(auto, unfolding(crate::specs::Numbers::wide_number_of))]
pub fn wide_number(word: &[u8]) -> Option<u64>
    ensures { result ≡ wide_number_of word.now }
{
    if word.is_empty() || word.len() > 20 {
        return None;
    }
    let mut value: u128 = 0;
    for digit in word {
        if !digit.is_ascii_digit() {
            return None;
        }
        value = value * 10 + u128::from(*digit - b'0');
    }
    u64::try_from(value).ok()
}

/// The number of transactions that a word is. It is none for a word that is no number, and for a
/// number above 100000.
pub fn transaction_count(word: &[u8]) -> Option<u32>
    ensures { result ≡ transaction_count_of word.now }
{
    number(word).filter(|n| *n <= MAX_TRANSACTIONS)
}
