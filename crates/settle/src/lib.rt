// Document 01, settle on a pool's words, under a header that the caller has; and the same for a pool whose header lies in its first
// words. After a step it looks only where that step can have made another one allowed: the slots are kept by blocks, and a block in which
// none is allowed is asleep. Every function is total: on words that show no State it ends too, and its contract says what it does there.
// Words and header are two parameters, as in crate updates.
#![tactic(auto)]

ghost use Rattle.std.specs.Prelude.{◌≡◌, suc, ◌-◌, ◌≤◌, slice_set};
ghost use Rattle.tree.specs.Sights.{parent_sees, grand_sees};
ghost use Rattle.settle.specs.Awake.{is_awake, wake, most_groups};
ghost use Rattle.settle.specs.Scanning.{slot_counts, first_from, in_group, first_awake};
ghost use Rattle.settle.specs.Waking.{two, woken_below, weight_after, kin_of, woken_above, wake_both, woken, woken_way};
ghost use Rattle.settle.specs.Settling.{settle_from, settle_under, settled_after, settle_answer, settle_words};

use format::Header;
use kinds::{Around, look};
use slots::{get_header, get_slot, last_slot, one_less, put_level};
use steps::{Lowest, is_inner, lowest_around, take_step};
use tree::{Answer, Kind};
use updates::{descend, toward};

// The slots of a block.
const BLOCK: u32 = 8;
// The blocks of a group.
const GROUP: u32 = 32;
// The blocks of 16,384 slots; the groups' places come after theirs.
const BLOCKS: usize = 2048;

const PLACES: usize = 2112;

// Whether the block or group whose place is i is awake. As slots' word, which is of numbers.
// The groups stand in the same table after the blocks: the definition's one scan of a row reads both.
#[tactic(auto, unfolding(crate::specs::Awake::is_awake))]
fn is_awake(awake: &[bool], i: usize) -> bool
    ensures { result ≡ is_awake awake.now i }
{
    awake.get(i).copied().unwrap_or(false)
}

// As slots' put_word, which is of numbers.
fn put_place(awake: &mut [bool], i: usize, x: bool)
    ensures { awake.new ≡ slice_set awake.old i x }
{
    if i < awake.len() {
        awake[i] = x;
    }
}

// Wakes a slot's block and that block's group. 01: "0 is no slot".
#[tactic(auto, unfolding(crate::specs::Awake::wake))]
fn wake(awake: &mut [bool], s: u32)
    ensures { awake.new ≡ wake awake.old s }
{
    if s != 0 {
        let b = s / BLOCK;
        put_place(awake, b as usize, true);
        put_place(awake, BLOCKS + (b / GROUP) as usize, true);
    }
}

// Two slots; as in the pool, 0 is no slot.
#[derive(Clone, Copy)]
pub struct Pair {
    pub one: u32,
    pub other: u32,
}

fn two(one: u32, other: u32) -> Pair
    ensures { result ≡ two one other }
{
    Pair { one, other }
}

fn wake_both(awake: &mut [bool], c: Pair)
    ensures { awake.new ≡ wake_both awake.old c }
{
    wake(awake, c.one);
    wake(awake, c.other);
}

// Whether a slot counts. Asked last, where a kind would be accepted: a seam, every slot counts today.
#[tactic(auto, unfolding(crate::specs::Scanning::slot_counts))]
fn slot_counts(pool: &[u32], h: Header, s: u32) -> bool
    ensures { result ≡ slot_counts h pool.now s }
{
    true
}

// "the lowest slot with an allowed kind, and there the lowest kind", of the slots from `from` to below `to`.
// Steps' scan goes from slot 1 to the last and asks no slot whether it is one; a block here may begin at 0 and end past C.
#[tactic(auto, using(crate::proofs::Scans::slots_bare, crate::proofs::Scans::slots_here, crate::proofs::Scans::slots_next, crate::proofs::Scans::slots_skipped, crate::proofs::Scans::slots_end))]
fn first_among(pool: &[u32], h: Header, from: u32, to: u32) -> Option<Lowest>
    ensures { result ≡ first_from (to - from) h pool.now from }
{
    for slot in from..to {
        let v = get_slot(pool, slot);
        if is_inner(pool, slot, v) {
            let around = look(pool, v);
            if let Some(kind) = lowest_around(h, slot, around) {
                if slot_counts(pool, h, slot) {
                    return Some(Lowest { slot, kind, around });
                }
            }
        }
    }
    None
}

// The same of the blocks of a group that are awake, up to that of the last slot. One that allows nothing falls asleep.
// Pool and awake apart: a search reads the pool and changes awake alone.
// Blocks and groups apart: each looks below in its own way.
#[tactic(auto, using(crate::proofs::Scans::same_asleep, crate::proofs::Scans::same_nothing, crate::proofs::Scans::same_found, crate::proofs::Scans::same_end, crate::proofs::Scans::block_found, crate::proofs::Scans::block_leaves, crate::proofs::Scans::group_begins))]
fn first_in_group(pool: &[u32], awake: &mut [bool], h: Header, g: u32) -> Option<Lowest>
    requires { suc g ≤ most_groups }
    ensures found { result ≡ (in_group h pool.now g awake.old).found }
    ensures awake { awake.new ≡ (in_group h pool.now g awake.old).awake }
{
    let first = GROUP * g;
    let end = (first + GROUP).min(last_slot(pool) / BLOCK + 1);
    for b in first..end {
        if is_awake(awake, b as usize) {
            if let Some(step) = first_among(pool, h, BLOCK * b, BLOCK * b + BLOCK) {
                return Some(step);
            }
            put_place(awake, b as usize, false);
        }
    }
    None
}

// The same of the groups that are awake.
#[tactic(auto, using(crate::proofs::Scans::same_asleep, crate::proofs::Scans::same_nothing, crate::proofs::Scans::same_found, crate::proofs::Scans::same_end, crate::proofs::Scans::groups_begin))]
fn first_awake(pool: &[u32], awake: &mut [bool], h: Header) -> Option<Lowest>
    ensures found { result ≡ (first_awake h pool.now awake.old).found }
    ensures awake { awake.new ≡ (first_awake h pool.now awake.old).awake }
{
    let last = last_slot(pool) / BLOCK / GROUP;
    for g in 0..=last {
        if is_awake(awake, BLOCKS + g as usize) {
            if let Some(step) = first_in_group(pool, awake, h, g) {
                return Some(step);
            }
            put_place(awake, BLOCKS + g as usize, false);
        }
    }
    None
}

// The slots below v that a kind can wake: those that it turns, and of kind 1 both children.
// A closed set, as in kinds' fits.
#[tactic(auto, unfolding(crate::specs::Waking::woken_below))]
fn woken_below(kind: Kind, a: Around) -> Pair
    ensures { result ≡ woken_below kind a }
{
    match kind {
        Kind::Blacken => two(a.v.left, a.v.right),
        Kind::SingleLeft => two(a.v.left, 0),
        Kind::SingleRight => two(a.v.right, 0),
        Kind::DoubleLeft => two(a.v.left, a.l.right),
        Kind::DoubleRight => two(a.v.right, a.r.left),
        Kind::Lighten => two(0, 0),
        Kind::LightenLeft => two(a.v.right, 0),
        Kind::LightenRight => two(a.v.left, 0),
    }
}

// The weight of v, w before, after a kind below the root.
// A closed set, as in kinds' fits; of the other kinds the weight stays.
#[tactic(auto, unfolding(crate::specs::Waking::weight_after))]
fn weight_after(kind: Kind, w: u32) -> u32
    ensures { result ≡ weight_after kind w }
{
    match kind {
        Kind::Blacken => one_less(w),
        Kind::Lighten => w.wrapping_add(1),
        _ => w,
    }
}

// Where an edge had weight w and has weight q: whether the node above it sees a difference; and the node above that.
#[tactic(auto, using(tree::proofs::Tests::red_test, tree::proofs::Tests::overweighted_test), unfolding(tree::specs::Sights::parent_sees))]
fn parent_sees(w: u32, q: u32) -> bool
    ensures { result ≡ parent_sees w q }
{
    (w == 0) | (q == 0) | ((1 < w) != (1 < q))
}

#[tactic(auto, using(tree::proofs::Tests::red_test), unfolding(tree::specs::Sights::grand_sees))]
fn grand_sees(w: u32, q: u32) -> bool
    ensures { result ≡ grand_sees w q }
{
    (w == 0) != (q == 0)
}

// A search for the key from slot root on, until it meets slot s: the parent's slot and the grandparent's, 0 where there is none. It goes
// down at most C slots, so it ends on any words.
// Not descend: it ends where it meets s, and keeps two above it.
#[tactic(auto, using(crate::proofs::Scans::kin_met, crate::proofs::Scans::kin_on, crate::proofs::Scans::kin_end), unfolding(crate::specs::Waking::kin_of))]
fn kin_of(pool: &[u32], root: u32, key: u32, s: u32) -> Pair
    ensures { result ≡ kin_of pool.now root key s }
{
    let mut grand: u32 = 0;
    let mut parent: u32 = 0;
    let mut v = root;
    for _ in 0..last_slot(pool) {
        if v == s {
            return two(parent, grand);
        }
        grand = parent;
        parent = v;
        v = toward(get_slot(pool, v), key);
    }
    two(parent, grand)
}

// The slots above that see a difference where the weight of slot s goes from w to q; key is its router.
#[tactic(auto, unfolding(crate::specs::Waking::woken_above))]
fn woken_above(pool: &[u32], root: u32, key: u32, s: u32, w: u32, q: u32) -> Pair
    ensures { result ≡ woken_above pool.now root key s w q }
{
    if !parent_sees(w, q) {
        return two(0, 0);
    }
    let kin = kin_of(pool, root, key, s);
    if grand_sees(w, q) {
        kin
    } else {
        two(kin.one, 0)
    }
}

// Before a kind is taken at slot s, around which a stands: wakes what it can make allowed.
#[tactic(auto, unfolding(crate::specs::Waking::woken))]
fn wake_around(pool: &[u32], awake: &mut [bool], h: Header, s: u32, kind: Kind, a: Around)
    ensures { awake.new ≡ woken h pool.now s kind a awake.old }
{
    let w = a.v.weight;
    wake_both(awake, woken_below(kind, a));
    wake_both(
        awake,
        woken_above(pool, h.root, a.v.key, s, w, weight_after(kind, w)),
    );
}

// "Settle repeats: the lowest slot with an allowed kind, and there the lowest kind, until none is left or the budget is spent."
// The loop of steps' settle_under; its search changes what is awake, which steps' has not.
#[tactic(auto, using(crate::proofs::SettleTurns::begin, crate::proofs::SettleTurns::turn, crate::proofs::SettleTurns::done, crate::proofs::SettleTurns::spent))]
fn settle_from(pool: &mut [u32], awake: &mut [bool], h: &mut Header, budget: u32) -> Answer
    ensures answer { result ≡ (settle_from awake.old pool.old h.old budget).result.answer }
    ensures header { h.new ≡ (settle_from awake.old pool.old h.old budget).result.header }
    ensures pool { pool.new ≡ (settle_from awake.old pool.old h.old budget).words }
{
    let mut taken: u32 = 0;
    while let Some(step) = first_awake(pool, awake, *h) {
        if taken == budget {
            return Answer::Spent(taken);
        }
        wake_around(pool, awake, *h, step.slot, step.kind, step.around);
        take_step(pool, h, step.slot, step.kind, step.around);
        taken += 1;
    }
    Answer::Done(taken)
}

// Settle, of any pool: every slot is looked at once, and then what the steps wake.
pub fn settle_under(pool: &mut [u32], h: &mut Header, budget: u32) -> Answer
    ensures answer { result ≡ (settle_under pool.old h.old budget).result.answer }
    ensures header { h.new ≡ (settle_under pool.old h.old budget).result.header }
    ensures pool { pool.new ≡ (settle_under pool.old h.old budget).words }
{
    let mut awake = [true; PLACES];
    settle_from(pool, &mut awake, h, budget)
}

// Wakes what an insert or delete of the key can have made allowed in a tree that was red-black.
#[tactic(auto, unfolding(crate::specs::Waking::woken_way))]
fn wake_way(pool: &[u32], awake: &mut [bool], root: u32, key: u32)
    ensures { awake.new ≡ woken_way root pool.now key awake.old }
{
    let w = descend(pool, root, key);
    wake_both(awake, two(w.leaf, w.parent));
    wake_both(awake, kin_of(pool, root, key, w.parent));
}

// Settle for a caller who knows that the tree was red-black before one insert or delete of the key. Of another tree it takes some of the steps
// that `settle_under` would, and may leave some.
pub fn settle_after(pool: &mut [u32], h: &mut Header, key: u32, budget: u32) -> Answer
    ensures answer { result ≡ (settled_after pool.old h.old key budget).result.answer }
    ensures header { h.new ≡ (settled_after pool.old h.old key budget).result.header }
    ensures pool { pool.new ≡ (settled_after pool.old h.old key budget).words }
{
    let mut awake = [false; PLACES];
    wake_way(pool, &mut awake, h.root, key);
    settle_from(pool, &mut awake, h, budget)
}

// Header, work, L, as in steps; crate updates says at insert why no function takes the work.
#[tactic(auto, unfolding(crate::specs::Settling::settle_answer, crate::specs::Settling::settle_words))]
pub fn settle(pool: &mut [u32], budget: u32) -> Answer
    ensures answer { result ≡ settle_answer pool.old budget }
    ensures pool { pool.new ≡ settle_words pool.old budget }
{
    let mut h = get_header(pool);
    let settled = settle_under(pool, &mut h, budget);
    put_level(pool, h.level);
    settled
}
