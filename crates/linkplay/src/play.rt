// The script read from standard input and played as it comes. What failed is said.
use crate::player::Player;
use std::fmt;
use std::io::Read;

// So many bytes are read at once. (As many as wait in the output, but a size of its own.)
const PART: usize = 65536;

// What ends a play before its script does.
#[derive(Clone, Copy, Debug, PartialEq, Eq)]
enum Failure {
    Unread,
    Unwritten,
}

impl fmt::Display for Failure {
    fn fmt<W: fmt::Write>(&self, f: &mut fmt::Formatter<W>) -> fmt::Result {
        f.write_str(match self {
            Failure::Unread => "linkplay: standard input can't be read",
            Failure::Unwritten => "linkplay: standard output can't be written",
        })
    }
}

// Reads on in the script, plays what came, and writes what it gave, so that who holds a conversation has the answer before the next line is sent. Where a read fails, a line that has not ended is not played: its end is not known.
fn play_all<P: Print>(input: &mut impl Read, player: &mut Player<P>) -> Result<(), Failure> {
    let mut script = [0; PART];
    // a proved loop has to end, and nothing says that the input does: no run reads so often
    for _ in 0..u64::MAX {
        let n = input.read(&mut script).map_err(|_| Failure::Unread)?;
        if n == 0 {
            break;
        }
        player
            .on_part(&script[..n])
            .map_err(|_| Failure::Unwritten)?;
    }
    player.finish().map_err(|_| Failure::Unwritten)
}

// Plays the script on standard input. Where even a failure can't be said there is nowhere left to say it.
pub fn play(rt: &(impl Print + Eprint + Input)) {
    let mut player = Player::new(rt);
    if let Err(failure) = play_all(&mut rt.reader(), &mut player) {
        let _ = rt.eprintln(failure);
    }
}
