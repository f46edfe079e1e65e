// 01, The batch: "Numbers are seven-bit groups, lowest first, top bit set when more follow. Only the shortest form, at most
// 4,294,967,295."
#![tactic(auto)]

ghost use Rattle.std.specs.Prelude.{◌≡◌, false, ◌+◌, ◌≤◌, ◌<◌, length, get_or, IfOk, IfErr};
ghost use Rattle.std.proofs.lemmas.List.Edits.{sets};
ghost use Rattle.encoding.specs.Numbers.{fault, number, groups, below};
ghost use Rattle.numbers.specs.Shortest.{bytes_of};

use encoding::{Fault, Reading};

// A byte below this is a last group; each group counts this many times as much as the one below it.
const GROUP: u32 = 128;

// As many groups may follow the second, and the last of them, the fifth, is at most 15.
const AFTER_SECOND: usize = 3;

const MOST_FIFTH: u32 = 15;

// The byte at place `at`; behind the last one it is the end of the bytes that goes wrong.
fn byte_at(bytes: &[u8], at: usize) -> Result<u32, Fault>
    ensures ok { IfOk result (λ b. (at < length bytes.now) × (b ≡ get_or bytes.now at 0) × (b < 256)) }
    ensures err { IfErr result (λ f. (length bytes.now ≤ at) × (f ≡ fault (length bytes.now))) }
{
    let byte = bytes.get(at).ok_or(Fault { place: bytes.len() })?;
    Ok(u32::from(*byte))
}

// The number at place `at`. Most are one byte long.
#[tactic(auto, using(crate::proofs::Groups::ended, crate::proofs::Groups::read_last, crate::proofs::Groups::more), unfolding(encoding::specs::Numbers::number))]
pub fn number(bytes: &[u8], at: usize) -> Reading<u32>
    ensures { result ≡ number bytes.now at }
{
    let byte = byte_at(bytes, at)?;
    if byte < GROUP {
        return Ok((byte, at + 1));
    }
    further(bytes, at + 1, byte - GROUP)
}

// The number with `low` as its lowest group and the others from place `from` on.
#[tactic(auto, using(crate::proofs::Groups::ended, crate::proofs::Groups::large, crate::proofs::Groups::padded, crate::proofs::Groups::read_last, crate::proofs::Ahead::answer, crate::proofs::Ahead::most, crate::proofs::Ahead::next_most, crate::proofs::Ahead::fits, crate::proofs::Ahead::ahead, crate::proofs::Ahead::below_above))]
fn further(bytes: &[u8], from: usize, low: u32) -> Reading<u32>
    requires { (low < 128) × (from ≤ length bytes.now) }
    ensures { result ≡ below low (groups 3 false bytes.now from) }
{
    let mut value = low;
    let mut unit = GROUP;
    let last = from + AFTER_SECOND;
    for i in from..last {
        let byte = byte_at(bytes, i)?;
        if byte < GROUP {
            if byte == 0 {
                return Err(Fault { place: i });
            }
            return Ok((value + unit * byte, i + 1));
        }
        value += unit * (byte - GROUP);
        unit *= GROUP;
    }
    let fifth = byte_at(bytes, last)?;
    if fifth == 0 {
        return Err(Fault { place: last });
    }
    if fifth <= MOST_FIFTH {
        return Ok((value + unit * fifth, last + 1));
    }
    Err(Fault { place: last })
}

// From here on a number takes two bytes, three, four, five.
const TWO_BYTES: u32 = GROUP;

const THREE_BYTES: u32 = GROUP * TWO_BYTES;

const FOUR_BYTES: u32 = GROUP * THREE_BYTES;

const FIVE_BYTES: u32 = GROUP * FOUR_BYTES;

// So many bytes may follow the first.
const MOST_MORE: usize = 4;

// How many bytes v takes.
#[tactic(auto, using(crate::proofs::Putting::one_byte, crate::proofs::Putting::two_bytes, crate::proofs::Putting::three_bytes, crate::proofs::Putting::four_bytes, crate::proofs::Putting::five_bytes))]
pub fn number_length(v: u32) -> usize
    ensures { result ≡ length (bytes_of v) }
{
    if v < TWO_BYTES {
        return 1;
    }
    if v < THREE_BYTES {
        return 2;
    }
    if v < FOUR_BYTES {
        return 3;
    }
    if v < FIVE_BYTES {
        return 4;
    }
    5
}

// Writes the bytes of v from place `at` on, where there is room for the longest number, and answers how many they are. Beside put_some, from which
// it differs in the test of the end, for speed (docs/DESIGN-PASS.md, twins, 16).
#[tactic(auto, using(crate::proofs::Putting::place_first, crate::proofs::Putting::place_last, crate::proofs::Putting::place_fifth, crate::proofs::Putting::place_more))]
fn put_whole(out: &mut [u8], at: usize, v: u32) -> usize
    requires { at + 4 < length out.old }
    ensures count { result ≡ length (bytes_of v) }
    ensures out { out.new ≡ sets out.old at (bytes_of v) }
{
    let mut left = v;
    let mut n = 0;
    while n < MOST_MORE {
        if left < GROUP {
            out[at + n] = left as u8;
            return n + 1;
        }
        out[at + n] = (GROUP + left % GROUP) as u8;
        left /= GROUP;
        n += 1;
    }
    out[at + n] = left as u8;
    n + 1
}

// The same as far as there is room.
#[tactic(auto, using(crate::proofs::Putting::put_first, crate::proofs::Putting::put_more, crate::proofs::Putting::put_last, crate::proofs::Putting::put_ended))]
fn put_some(out: &mut [u8], at: usize, v: u32)
    ensures { out.new ≡ sets out.old at (bytes_of v) }
{
    let mut left = v;
    let mut i = at;
    while i < out.len() {
        if left < GROUP {
            out[i] = left as u8;
            return;
        }
        out[i] = (GROUP + left % GROUP) as u8;
        left /= GROUP;
        i += 1;
    }
}

// Writes the bytes of v from place `at` on, and answers how many they are. Past the end nothing is written. No writer that moves on: the place
// goes on past the end, as save counts.
#[tactic(auto, using(crate::proofs::Putting::past_end))]
pub fn put_number(out: &mut [u8], at: usize, v: u32) -> usize
    ensures count { result ≡ length (bytes_of v) }
    ensures out { out.new ≡ sets out.old at (bytes_of v) }
{
    if out.len() <= at {
        return number_length(v);
    }
    if MOST_MORE < out.len() && at < out.len() - MOST_MORE {
        return put_whole(out, at, v);
    }
    put_some(out, at, v);
    number_length(v)
}
