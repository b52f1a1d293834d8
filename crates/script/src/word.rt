// The one reader of numbers: sizes, counts and bytes are words of a line, each of its kind.

// What a word of a line says.
#[derive(Clone, Copy, Debug, PartialEq, Eq)]
pub enum Word {
    // The size of the buffer that the call is lent, in place of its row's.
    Room,
    // Another size.
    Size,
    Number,
    Byte,
}

// The greatest size: so many bytes a call can be lent.
pub const MOST: usize = 600;

// The value of a digit, in either case. (By hand: `to_digit` asks for a base of 2 to 36, a premise here, at `spelt` and at `decimal`: no plainer.)
fn digit(c: u8, base: u32) -> Option<u32> {
    let value = match c {
        b'0'..=b'9' => c - b'0',
        b'A'..=b'F' => c - b'A' + 10,
        b'a'..=b'f' => c - b'a' + 10,
        _ => return None,
    };
    Some(value as u32).filter(|value| *value < base)
}

// The number that these digits spell. Of so few none is too great for 32 bits. (`from_str_radix` would take a sign too, which is out of form here.)
fn spelt(word: &[u8], base: u32) -> Option<u32> {
    word.iter().try_fold(0, |n: u32, c| {
        n.checked_mul(base)?.checked_add(digit(*c, base)?)
    })
}

// A number of 1 to 9 decimal digits.
fn decimal(word: &[u8]) -> Option<u32> {
    if word.is_empty() || 9 < word.len() {
        return None;
    }
    spelt(word, 10)
}

impl Word {
    // What a word of this kind says, none where it is out of form. (A number for each kind: an enum of values would only be taken apart again by the same kinds.)
    pub(crate) fn read(self, word: &[u8]) -> Option<u32> {
        match self {
            Word::Room | Word::Size => decimal(word).filter(|n| *n as usize <= MOST),
            Word::Number => decimal(word),
            Word::Byte if word.len() == 2 => spelt(word, 16),
            Word::Byte => None,
        }
    }
}
