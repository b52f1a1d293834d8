// The time that a frame's bytes take on the wire (document 02, P2).
ghost use Rattle.std.specs.Prelude.{◌≡◌, min};
ghost use Rattle.rules.specs.Rules.{wire_time};

use crate::job::Job;

impl Job {
    // By the frame's length, 0 to 257 bytes, in milliseconds: 25/288 of it, rounded up. (A list: document 02 asks for its
    // 258 entries, and four edits change one each.)
    const WIRE_TIMES: [u8; 258] = [
        0, // no byte
        1, // from 1 byte
        1, 1, 1, 1, 1, 1, 1, 1, 1, 1, // to 11 bytes
        2, // from 12 bytes
        2, 2, 2, 2, 2, 2, 2, 2, 2, 2, 2, // to 23 bytes
        3, // from 24 bytes
        3, 3, 3, 3, 3, 3, 3, 3, 3, 3, // to 34 bytes
        4, // from 35 bytes
        4, 4, 4, 4, 4, 4, 4, 4, 4, 4, 4, // to 46 bytes
        5, // from 47 bytes
        5, 5, 5, 5, 5, 5, 5, 5, 5, 5, // to 57 bytes
        6, // from 58 bytes
        6, 6, 6, 6, 6, 6, 6, 6, 6, 6, 6, // to 69 bytes
        7, // from 70 bytes
        7, 7, 7, 7, 7, 7, 7, 7, 7, 7, // to 80 bytes
        8, // from 81 bytes
        8, 8, 8, 8, 8, 8, 8, 8, 8, 8, 8, // to 92 bytes
        9, // from 93 bytes
        9, 9, 9, 9, 9, 9, 9, 9, 9, 9, // to 103 bytes
        10, // from 104 bytes
        10, 10, 10, 10, 10, 10, 10, 10, 10, 10, 10, // to 115 bytes
        11, // from 116 bytes
        11, 11, 11, 11, 11, 11, 11, 11, 11, 11, // to 126 bytes
        12, // from 127 bytes
        12, 12, 12, 12, 12, 12, 12, 12, 12, 12, 12, // to 138 bytes
        13, // from 139 bytes
        13, 13, 13, 13, 13, 13, 13, 13, 13, 13, // to 149 bytes
        14, // from 150 bytes
        14, 14, 14, 14, 14, 14, 14, 14, 14, 14, 14, // to 161 bytes
        15, // from 162 bytes
        15, 15, 15, 15, 15, 15, 15, 15, 15, 15, // to 172 bytes
        16, // from 173 bytes
        16, 16, 16, 16, 16, 16, 16, 16, 16, 16, 16, // to 184 bytes
        17, // from 185 bytes
        17, 17, 17, 17, 17, 17, 17, 17, 17, 17, // to 195 bytes
        18, // from 196 bytes
        18, 18, 18, 18, 18, 18, 18, 18, 18, 18, 18, // to 207 bytes
        19, // from 208 bytes
        19, 19, 19, 19, 19, 19, 19, 19, 19, 19, // to 218 bytes
        20, // from 219 bytes
        20, 20, 20, 20, 20, 20, 20, 20, 20, 20, 20, // to 230 bytes
        21, // from 231 bytes
        21, 21, 21, 21, 21, 21, 21, 21, 21, 21, // to 241 bytes
        22, // from 242 bytes
        22, 22, 22, 22, 22, 22, 22, 22, 22, 22, 22, // to 253 bytes
        23, // from 254 bytes
        23, 23, 23, // to 257 bytes
    ];
}

// Where the time of so many bytes stands in the list. A length above 257, which no link from opening holds, counts as 257.
#[inline]
fn place_of(size: u16) -> usize
    ensures { result ≡ min size 257 }
{
    size.min(257) as usize
}

// The time of a frame of so many bytes on the wire, in milliseconds.
#[inline]
pub(crate) fn wire_time(size: u16) -> u8
    ensures { result ≡ wire_time size }
{
    Job::WIRE_TIMES[place_of(size)]
}
