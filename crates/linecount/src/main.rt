// linecount (document 01, section 9): counts what stands in the raw bytes of standard input.
#![tactic(auto)]

ghost use Rattle.linecount.specs.Promises.{Within};
ghost use Rattle.std.specs.Prelude.{IfOk, length};

use std::io;
use std::io::Read;
use tally::Tally;

// The most bytes that are counted.
const MOST: usize = 16777216;

// So many bytes are read at once.
const PART: usize = 65536;

// One read, of at most so many bytes, to the front of buf. It comes to 0 where the input has ended; an error is never its end.
fn read_some(input: &mut impl Read, buf: &mut [u8], most: usize) -> io::Result<usize>
    ensures { IfOk result (Within most (length buf.new)) }
{
    let room = most.min(buf.len());
    input.read(&mut buf[..room])
}

// The tally of the input, and how many bytes behind the most that are counted were seen. Every turn counts at least one byte, so the
// loop ends; how much a read gives is not known before, so it is a `while`. Only a byte behind the last that is counted shows that input remained unread.
fn count_input(input: &mut impl Read, buf: &mut [u8]) -> io::Result<(Tally, usize)> {
    let mut tally = Tally::fresh();
    let mut left = MOST;
    while left > 0 {
        let n = read_some(input, buf, left)?;
        if n == 0 {
            return Ok((tally, 0));
        }
        counting::count(&mut tally, &buf[..n]);
        left -= n;
    }
    let cut = read_some(input, buf, 1)?;
    Ok((tally, cut))
}

// A line for each count, in the order of section 9.
fn print(rt: &impl Print, tally: Tally, cut: usize) -> io::Result<()> {
    let counts = tally.counts;
    let lines = [
        ("ack", counts.ack),
        ("nak", counts.nak),
        ("can", counts.can),
        ("frames", counts.frames),
        ("badsum", counts.badsum),
        ("badlen", counts.badlen),
        ("reserved", counts.reserved),
        ("skipped", counts.skipped),
        ("open", tally.open_bytes()),
        ("cut", cut as u64),
    ];
    for (key, n) in lines {
        println!(rt; "{key}={n}")?;
    }
    Ok(())
}

// Says what failed. Where even that can't be written there is nowhere left to say it.
fn complain(rt: &impl Eprint, sentence: &str) {
    let _ = rt.eprintln(sentence);
}

fn main(rt: HostRuntime) {
    let mut buf = [0u8; PART];
    let Ok((tally, cut)) = count_input(&mut rt.reader(), &mut buf) else {
        return complain(&rt, "linecount: standard input can't be read");
    };
    if print(&rt, tally, cut).is_err() {
        complain(&rt, "linecount: standard output can't be written");
    }
}
