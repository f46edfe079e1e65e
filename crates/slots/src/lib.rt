// A pool's words, lent: words, slots and the header, read and written by functions that are total. Past the end a read is 0 and a
// write does nothing, so callers have no bounds to prove and every contract is an equation. By 01 the pool is one lent slice of words, with no heap:
// so slots name one another by number.
#![tactic(auto)]

ghost use Rattle.std.specs.Prelude.{◌≡◌, get_or, set, pred, ◌-◌};
ghost use Rattle.format.specs.Words.{header_of, put_header, put_level, slot_at, put_slot, part_of, put_part, slots_in, last_slot, length_good, free_slot};
ghost use Rattle.format.specs.Audit.{is_slot};

use format::{Header, Part, Slot};
use tree::MOST_SLOTS;

// 01: "4 header words, then 4 words for each of C slots".
pub const SLOT_WORDS: usize = 4;
// 01: "A free slot is 0, next free slot (0 at the end), 0, 4,294,967,295."
pub const FREE_WEIGHT: u32 = 4294967295;
// Word i. Past the end a word reads as 0, and a write does nothing.
pub fn word(pool: &[u32], i: usize) -> u32
    ensures { result ≡ get_or pool.now i 0 }
{
    pool.get(i).copied().unwrap_or(0)
}

// By its index: what a slice is after a write through `get_mut` is not known here.
pub fn put_word(pool: &mut [u32], i: usize, x: u32)
    ensures { pool.new ≡ set pool.old i x }
{
    if i < pool.len() {
        pool[i] = x;
    }
}

// The words of slot s. Where all four lie in the pool one test serves them; with a test for each a slot took twice the time.
#[tactic(auto, unfolding(format::specs::Words::slot_at))]
pub fn get_slot(pool: &[u32], s: u32) -> Slot
    ensures { result ≡ slot_at pool.now s }
{
    let i = SLOT_WORDS * (s as usize);
    if let Some([key, left, right, weight]) = pool.get(i..i + SLOT_WORDS) {
        Slot {
            key: *key,
            left: *left,
            right: *right,
            weight: *weight,
        }
    } else {
        Slot {
            key: word(pool, i),
            left: word(pool, i + 1),
            right: word(pool, i + 2),
            weight: word(pool, i + 3),
        }
    }
}

// Written as it is read: after a `get_slot` of the same slot the test is made once.
#[tactic(auto, unfolding(format::specs::Words::put_slot))]
pub fn put_slot(pool: &mut [u32], s: u32, c: Slot)
    ensures { pool.new ≡ put_slot pool.old s c }
{
    let i = SLOT_WORDS * (s as usize);
    if i + SLOT_WORDS <= pool.len() {
        pool[i] = c.key;
        pool[i + 1] = c.left;
        pool[i + 2] = c.right;
        pool[i + 3] = c.weight;
    } else {
        put_word(pool, i, c.key);
        put_word(pool, i + 1, c.left);
        put_word(pool, i + 2, c.right);
        put_word(pool, i + 3, c.weight);
    }
}

// One word of slot s.
#[tactic(auto, using(format::proofs::Parts::place_small, format::proofs::Parts::part_read))]
pub fn get_part(pool: &[u32], s: u32, part: Part) -> u32
    ensures { result ≡ part_of part (slot_at pool.now s) }
{
    word(pool, SLOT_WORDS * (s as usize) + part.place())
}

// Of the words c one, to slot s.
#[tactic(auto, using(format::proofs::Parts::place_small), unfolding(format::specs::Words::put_part))]
pub fn put_part(pool: &mut [u32], s: u32, part: Part, c: Slot)
    ensures { pool.new ≡ put_part pool.old s part c }
{
    let i = SLOT_WORDS * (s as usize) + part.place();
    put_word(pool, i, part.of(c));
}

#[tactic(auto, unfolding(format::specs::Words::header_of))]
pub fn get_header(pool: &[u32]) -> Header
    ensures { result ≡ header_of pool.now }
{
    Header {
        root: word(pool, 0),
        free: word(pool, 1),
        nodes: word(pool, 2),
        level: word(pool, 3),
    }
}

// Word i, written only where it changes.
fn renew_word(pool: &mut [u32], i: usize, x: u32)
    ensures { pool.new ≡ set pool.old i x }
{
    if word(pool, i) != x {
        put_word(pool, i, x);
    }
}

// A word of the header that stays is not written, so a search, a refused command and a refused call write no pool word.
#[tactic(auto, unfolding(format::specs::Words::put_header))]
pub fn put_header(pool: &mut [u32], h: Header)
    ensures { pool.new ≡ put_header pool.old h }
{
    renew_word(pool, 0, h.root);
    renew_word(pool, 1, h.free);
    renew_word(pool, 2, h.nodes);
    renew_word(pool, 3, h.level);
}

// L alone, and only where it moved.
#[tactic(auto, unfolding(format::specs::Words::put_level))]
pub fn put_level(pool: &mut [u32], level: u32)
    ensures { pool.new ≡ put_level pool.old level }
{
    renew_word(pool, 3, level);
}

// C, of a pool of any length.
#[tactic(auto, unfolding(format::specs::Words::slots_in))]
pub fn slots_in(pool: &[u32]) -> usize
    ensures { result ≡ slots_in pool.now }
{
    (pool.len() / SLOT_WORDS).saturating_sub(1)
}

// The last slot: C, and no more than MOST_SLOTS of a pool that is longer than one may be.
pub fn last_slot(pool: &[u32]) -> u32
    ensures { result ≡ last_slot pool.now }
{
    slots_in(pool).min(MOST_SLOTS as usize) as u32
}

// 01: "its length is 4 + 4C"; 02 (viii): "Raise C to 16,383. [..] Code 1 follows the new limit."
#[tactic(auto, unfolding(format::specs::Words::length_good, format::specs::Words::slots_in))]
pub fn length_good(pool: &[u32]) -> bool
    ensures { result ≡ length_good pool.now }
{
    let c = slots_in(pool);
    pool.len() == SLOT_WORDS + SLOT_WORDS * c && (1..=MOST_SLOTS as usize).contains(&c)
}

// 01: "Slots are numbered from 1; 0 is no slot."
#[tactic(auto, unfolding(format::specs::Audit::is_slot))]
pub fn is_slot(pool: &[u32], s: u32) -> bool
    ensures { result ≡ is_slot pool.now s }
{
    1 <= s && s as usize <= slots_in(pool)
}

// A weight or a count that falls by 1; 0 stays.
pub fn one_less(n: u32) -> u32
    ensures { result ≡ pred n }
{
    n.saturating_sub(1)
}

// n less `by`; it falls to 0 and no further.
pub fn less_by(n: u32, by: u32) -> u32
    ensures { result ≡ n - by }
{
    n.saturating_sub(by)
}

pub fn free_slot(next: u32) -> Slot
    ensures { result ≡ free_slot next }
{
    Slot {
        key: 0,
        left: next,
        right: 0,
        weight: FREE_WEIGHT,
    }
}
