// A line of a script becomes an order: its words are read one by one, as its verb's row in the table has them.
ghost use Rattle.std.specs.Prelude.{◌≡◌, true, false, Ok, None, IfOk, IsSome};
ghost use Rattle.script.specs.Order.{asks_nothing};

use crate::table::{Row, Verb, row_of};
use crate::word::Word;
use orders::Store;

// So many bytes a line of at most 4,096 bytes can spell: each takes three characters.
pub const SPELT: usize = 1366;

// A line that no order has the form of.
#[derive(Clone, Copy, Debug, PartialEq, Eq)]
pub struct Malformed;

// What the words of a line say that are numbers.
#[derive(Clone, Copy)]
pub struct Numbers {
    // The size of the buffer that the call is lent.
    pub room: usize,
    // The last number of the line, and the one before it.
    pub last: u32,
    pub before: u32,
}

// What a line asks for. (One shape for all verbs, and no case with data of its own for each: that would be a reader for each, where one goes through the words of every row.)
#[derive(Clone, Copy)]
pub struct Order<'a> {
    pub verb: Verb,
    pub numbers: Numbers,
    // The bytes that its words spell.
    pub bytes: &'a [u8],
}

// The words of a line behind its verb, as far as they are read.
#[derive(Drop)]
struct Reading<'a> {
    row: &'a Row,
    // The words that its row asks for and that have not come yet.
    missing: &'a [Word],
    numbers: Numbers,
}

impl Reading<'_> {
    // The next word. Behind all that a row asks for it may take any further bytes.
    fn take(&mut self, word: &[u8], spelt: &mut Store<SPELT>) -> Option<()> {
        let kind = match self.missing.split_first() {
            Some((kind, missing)) => {
                self.missing = missing;
                *kind
            }
            None if self.row.has_more => Word::Byte,
            None => return None,
        };
        let value = kind.read(word)?;
        match kind {
            Word::Byte => spelt.keep_whole(&[u8::try_from(value).ok()?], 1),
            Word::Room => self.numbers.room = value as usize,
            Word::Size | Word::Number => {
                self.numbers.before = self.numbers.last;
                self.numbers.last = value;
            }
        }
        Some(())
    }
}

// What a line asks for, none where it is empty or a comment.
pub fn order_of<'a>(
    line: &[u8],
    spelt: &'a mut Store<SPELT>,
) -> Result<Option<Order<'a>>, Malformed>
    ensures nothing { asks_nothing line.now ≡ true → result ≡ Ok None }
    ensures something { asks_nothing line.now ≡ false → IfOk result IsSome }
{
    if line.is_empty() || line.starts_with(b"#") {
        return Ok(None);
    }
    read(line, spelt).map(Some).ok_or(Malformed)
}

// What a line of words asks for. Each word has a space before it, and a verb none.
fn read<'a>(line: &[u8], spelt: &'a mut Store<SPELT>) -> Option<Order<'a>> {
    let mut words = line.split(|c| *c == b' ');
    let row = row_of(words.next()?)?;
    let mut reading = Reading {
        row,
        missing: row.words,
        numbers: Numbers {
            room: row.room,
            last: 0,
            before: 0,
        },
    };
    spelt.clear();
    for word in words {
        reading.take(word, spelt)?;
    }
    if !reading.missing.is_empty() {
        return None;
    }
    Some(Order {
        verb: row.verb,
        numbers: reading.numbers,
        bytes: spelt.bytes(),
    })
}
