// The output: characters wait in one buffer, which is written when it is full and when the program asks for it. Who may write has the handle to print with.
// The promises say what waits then: all that was put, but for a front of it that is written. That it is written no contract can say.
ghost use Rattle.std.specs.Prelude.{◌≡◌, [], ◌∷◌, IsOk, OnOk};
ghost use Rattle.refusals.specs.Refusals.{number_of};
ghost use Rattle.script.specs.Output.{Ends, Follows, Puts, bytes_text, end_text, hex, refused_text};

use arrayvec::ArrayVec;
use itoa::Buffer;
use refusals::Refusal;
use std::{fmt, io};

// So many bytes wait before they are written. They stand in the output itself: nothing is allocated.
const PART: usize = 65536;

const DIGITS: &[u8; 16] = b"0123456789ABCDEF";

#[derive(Drop)]
pub struct Output<'a, P: Print> {
    rt: &'a P,
    waiting: ArrayVec<u8, PART>,
}

impl<'a, P: Print> Output<'a, P> {
    // Nothing waits yet.
    pub fn new(rt: &'a P) -> Self
        ensures { result.waiting.items ≡ [] }
    {
        Output {
            rt,
            waiting: ArrayVec::new(),
        }
    }

    // Writes what waits.
    pub fn flush(&mut self) -> io::Result<()>
        ensures { self.new.waiting.items ≡ [] }
    {
        let done = self.rt.write_all(self.waiting.as_slice());
        self.waiting.clear();
        done
    }

    // Puts a character behind what waits. A full buffer is written first.
    pub fn put(&mut self, c: u8) -> io::Result<()>
        ensures waits { Puts self.old.waiting (c ∷ []) result self.new.waiting }
        ensures last { OnOk result (Ends self.new.waiting c) }
    {
        if self.waiting.is_full() {
            self.flush()?;
        }
        self.waiting.push(c);
        Ok(())
    }

    // The characters of a text.
    pub fn put_all(&mut self, text: &[u8]) -> io::Result<()>
        ensures { Puts self.old.waiting text.now result self.new.waiting }
    {
        if self.waiting.try_extend_from_slice(text).is_ok() {
            return Ok(());
        }
        for c in text {
            self.put(*c)?;
        }
        Ok(())
    }

    // A byte as two hexadecimal digits, in upper case. (By a table: with `{:02X}`, which was tried, 60,000 `build` lines of 200 bytes took 0.48 s in place of 0.25.)
    pub(crate) fn put_byte(&mut self, b: u8) -> io::Result<()>
        ensures { Puts self.old.waiting (hex b) result self.new.waiting }
    {
        self.put_all(&[DIGITS[b as usize / 16], DIGITS[b as usize % 16]])
    }

    // Bytes as hexadecimal digits, `-` where there are none.
    pub fn put_bytes(&mut self, bytes: &[u8]) -> io::Result<()>
        ensures { Puts self.old.waiting (bytes_text bytes.now) result self.new.waiting }
    {
        if bytes.is_empty() {
            return self.put(b'-');
        }
        for b in bytes {
            self.put_byte(*b)?;
        }
        Ok(())
    }

    // Why a call is refused. (Not by `write!`: that it does not fail where there is room the kit does not say.)
    pub fn put_refused(&mut self, refusal: Refusal) -> io::Result<()>
        ensures { Puts self.old.waiting (refused_text (number_of refusal)) result self.new.waiting }
    {
        self.put_all(b" refused=")?;
        self.put_all(Buffer::new().format(u8::from(refusal)).as_bytes())
    }

    // The end of a line of output.
    pub fn put_end(&mut self, is_spilled: bool) -> io::Result<()>
        ensures waits { Puts self.old.waiting (end_text is_spilled) result self.new.waiting }
        ensures last { OnOk result (Ends self.new.waiting 10) }
    {
        if is_spilled {
            self.put_all(b" SPILL")?;
        }
        self.put(b'\n')
    }
}

// So a line is put together by `write!`. (Not `io::Write`, which writes parts: what waits is written whole, or the play ends.)
impl<'a, P: Print> fmt::Write for Output<'a, P> {
    ghost write_str_gives = { λ before text after. Follows before.waiting text after.waiting };

    fn write_str(&mut self, text: &str) -> fmt::Result
        ensures ok { IsOk result → Follows self.old.waiting text.now self.new.waiting }
        ensures puts { Puts self.old.waiting text.now result self.new.waiting }
    {
        self.put_all(text.as_bytes()).map_err(|_| fmt::Error)
    }
}
