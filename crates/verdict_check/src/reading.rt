ghost use Rattle.std.specs.Prelude.{◌≡◌, decimal, Some};

use itoa::Buffer;

/// A text that is read piece by piece: what is left of it, as long as it was as wanted.
#[derive(Clone, Copy)]
pub struct Reading<'a> {
    pub rest: Option<&'a [u8]>,
}

impl<'a> Reading<'a> {
    ghost use Rattle.verdict_check.specs.Texts.{left, left_behind};

    /// The beginning of a text.
    pub fn of(text: &'a [u8]) -> Reading<'a>
        ensures { left result ≡ Some text.now }
    {
        Reading { rest: Some(text) }
    }

    /// Reads a piece.
    pub fn then(self, piece: &[u8]) -> Reading<'a>
        ensures { left result ≡ left_behind piece.now (left self.entry) }
    {
        let Some(text) = self.rest else {
            return self;
        };
        Reading {
            rest: text.strip_prefix(piece),
        }
    }

    /// Reads a number, which has no leading zeros.
    pub fn then_number(self, number: u64) -> Reading<'a>
        ensures { left result ≡ left_behind (decimal number) (left self.entry) }
    {
        if number < 10 {
            return self.then(&[b'0' + number as u8]);
        }
        self.then(Buffer::new().format(number).as_bytes())
    }
}
