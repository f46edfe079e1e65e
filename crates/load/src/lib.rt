// 02 (i), the reader of the saved form. All bytes are judged before the first word is written: "The reader's pool may hold any words."
#![tactic(auto)]

ghost use Rattle.std.specs.Prelude.{◌≡◌, length, ◌+◌, ◌-◌, ◌^◌, ◌≤◌, ◌<◌};
ghost use Rattle.tree.specs.Codes.{most_slots, answer_of};
ghost use Rattle.tree.specs.State.{upwards};
ghost use Rattle.format.specs.Words.{head_of};
ghost use Rattle.saved.specs.Loaded.{numbers_at, numbers_in, is_count, bad_place};
ghost use Rattle.saved.specs.Calls.{place_word, load_call};
ghost use Rattle.load.specs.Judging.{JudgeSays, TopSays, WholeSays, read_whole};
ghost use Rattle.load.specs.Building.{Buildable, BuildSays, TopBuildable, TopBuildSays, AllBuildSays, put_up};

use encoding::Fault;
use format::{Header, Slot};
use numbers::number;
use pool::{KEY_END, ROOT_WEIGHT, Whole, join, walk_leaf};
use slots::{free_slot, last_slot, length_good, put_header, put_slot};
use tree::{MOST_SLOTS, Refusal};

// "twice the weight, plus 1 for an inner node"
const TWICE: u32 = 2;

// The tree whose numbers begin at place `at`, its keys from lo to below hi, at most `left` nodes deep, of at most `most` nodes: what a walk over a
// pool's tree would find, and the place after its numbers. As in the audit's walk a right side may have the nodes that its left side left over, and
// the first fault ends it: at most most + 1 calls in all.
fn judge(bytes: &[u8], at: usize, lo: u64, hi: u64, left: u32, most: u32) -> Option<(Whole, usize)>
    ensures { JudgeSays bytes.now at lo hi left most result }
{
    if left < 1 {
        return None;
    }
    if most < 1 {
        return None;
    }
    let (a, i) = number(bytes, at).ok()?;
    let (k, j) = number(bytes, i).ok()?;
    if a % TWICE == 0 {
        let c = Slot {
            key: k,
            left: 0,
            right: 0,
            weight: a / TWICE,
        };
        let leaf = walk_leaf(c, lo, hi, most - 1)?;
        return Some((leaf, j));
    }
    let mid = k as u64 + 1;
    let (l, behind_left) = judge(bytes, j, lo, mid, left - 1, most - 1)?;
    let (r, end) = judge(bytes, behind_left, mid, hi, left - 1, l.rest)?;
    let node = join(a / TWICE, r.rest, l.sum, r.sum)?;
    Some((node, end))
}

// The numbers from place `at` to the end, as one good tree of n nodes that hangs from an edge of weight 1; no numbers if n is 0. L is the sum
// that judging the tree gave, less the root's weight, which counts in nothing.
#[tactic(auto, using(crate::proofs::Wholes::top_none_past, crate::proofs::Wholes::top_none, crate::proofs::Wholes::top_cut, crate::proofs::Wholes::top_weight, crate::proofs::Wholes::top_fault, crate::proofs::Wholes::top_more, crate::proofs::Wholes::top_past, crate::proofs::Wholes::top_sum))]
fn judge_top(bytes: &[u8], at: usize, n: u32) -> Option<u32>
    requires { n < 2 ^ 31 }
    ensures { TopSays bytes.now at n result }
{
    if n == 0 {
        if at != bytes.len() {
            return None;
        }
        return Some(0);
    }
    let (a, _) = number(bytes, at).ok()?;
    if a / TWICE != ROOT_WEIGHT {
        return None;
    }
    let (tree, end) = judge(bytes, at, 0, KEY_END, (n + 1) / 2, n)?;
    if tree.rest != 0 {
        return None;
    }
    if end != bytes.len() {
        return None;
    }
    Some(tree.sum - ROOT_WEIGHT)
}

// C is from 1 to MOST_SLOTS, N at most C.
#[tactic(auto, using(crate::proofs::Wholes::count_none, crate::proofs::Wholes::count_many, crate::proofs::Wholes::count_is))]
fn is_count(c: u32, n: u32) -> bool
    ensures { result ≡ is_count most_slots c n }
{
    1 <= c && c <= MOST_SLOTS && n <= c
}

// What the bytes say that a writer writes: C, N, L, and where the nodes begin.
#[derive(Clone, Copy)]
struct Said {
    slots: u32,
    nodes: u32,
    level: u32,
    at: usize,
}

#[tactic(auto, using(crate::proofs::Wholes::no_slots, crate::proofs::Wholes::no_nodes, crate::proofs::Wholes::no_count, crate::proofs::Wholes::no_top, crate::proofs::Wholes::all_found, crate::proofs::Wholes::count_few))]
fn judge_all(bytes: &[u8]) -> Option<Said>
    ensures { WholeSays bytes.now result }
{
    let (slots, i) = number(bytes, 0).ok()?;
    let (nodes, at) = number(bytes, i).ok()?;
    if !is_count(slots, nodes) {
        return None;
    }
    let level = judge_top(bytes, at, nodes)?;
    Some(Said {
        slots,
        nodes,
        level,
        at,
    })
}

// Reads `count` numbers from place `at` on, up to the first that goes wrong.
#[tactic(auto, using(crate::proofs::Places::whole_end, crate::proofs::Places::whole_next, crate::proofs::Places::whole_stop))]
fn read_numbers(bytes: &[u8], at: usize, count: u64) -> Result<(), Fault>
    ensures { result ≡ read_whole (numbers_at count bytes.now at) }
{
    let mut i = at;
    for _ in 0..count {
        let (_, next) = number(bytes, i)?;
        i = next;
    }
    Ok(())
}

// C, N, and two numbers for each node.
#[tactic(auto, using(crate::proofs::Places::slots_stop, crate::proofs::Places::count_stop, crate::proofs::Places::nodes_read))]
fn read_all(bytes: &[u8]) -> Result<(), Fault>
    ensures { result ≡ read_whole (numbers_in bytes.now) }
{
    let (_, i) = number(bytes, 0)?;
    let (n, at) = number(bytes, i)?;
    read_numbers(bytes, at, 2 * n as u64)
}

// 02 (ii): "the place of the first bad number, and the count of saved bytes where every number reads". It is looked for in bytes that are refused,
// and in no others.
#[tactic(auto, using(crate::proofs::Places::place_whole, crate::proofs::Places::place_fault))]
fn bad_place(bytes: &[u8]) -> usize
    ensures { result ≡ bad_place bytes.now }
{
    match read_all(bytes) {
        Ok(()) => bytes.len(),
        Err(fault) => fault.place,
    }
}

// The place as a word: past 32 bits it is the last one.
#[tactic(auto, unfolding(saved::specs::Calls::place_word))]
fn place_word(place: usize) -> u32
    ensures { result ≡ place_word place }
{
    u32::try_from(place).unwrap_or(u32::MAX)
}

// Where the next number and the next slot are.
#[derive(Clone, Copy)]
struct Place {
    at: usize,
    slot: u32,
}

// Writes the tree whose numbers begin at place `at`: "The reader numbers slots 1, 2, .. in that order". They were judged before, so they read.
fn build(pool: &mut [u32], bytes: &[u8], at: usize, s: u32, left: u32) -> Place
    requires { Buildable bytes.now at s left }
    ensures { BuildSays bytes.now at s pool.old pool.new result }
{
    let (a, i) = number(bytes, at).unwrap();
    let (k, j) = number(bytes, i).unwrap();
    if a % TWICE == 0 {
        put_slot(
            pool,
            s,
            Slot {
                key: k,
                left: 0,
                right: 0,
                weight: a / TWICE,
            },
        );
        return Place { at: j, slot: s + 1 };
    }
    let l = build(pool, bytes, j, s + 1, left - 1);
    let r = build(pool, bytes, l.at, l.slot, left - 1);
    put_slot(
        pool,
        s,
        Slot {
            key: k,
            left: s + 1,
            right: l.slot,
            weight: a / TWICE,
        },
    );
    r
}

// The whole set, none if n is 0.
#[tactic(auto, using(crate::proofs::Filling::build_none, crate::proofs::Filling::build_able))]
fn build_top(pool: &mut [u32], bytes: &[u8], n: u32, at: usize)
    requires { TopBuildable bytes.now n at }
    ensures { TopBuildSays bytes.now n at pool.old pool.new }
{
    if n == 0 {
        return;
    }
    build(pool, bytes, at, 1, (n + 1) / 2);
}

// What follows slot s on the chain of all slots up to `last`.
// 0 at the end, as the word in the pool says it.
#[tactic(auto, using(crate::proofs::Chaining::next_up, crate::proofs::Chaining::next_none))]
fn next_free(s: u32, last: u32) -> u32
    ensures { result ≡ head_of (upwards (s + 1) (last - s)) }
{
    if s < last { s + 1 } else { 0 }
}

// ".. and chains the rest upwards": the slots from `first` to `last`.
#[tactic(auto, using(crate::proofs::Chaining::chain_done, crate::proofs::Chaining::chain_next))]
fn chain_up(pool: &mut [u32], first: u32, last: u32)
    requires { last + 1 < 2 ^ 32 }
    ensures { pool.new ≡ put_up pool.old first (last + 1 - first) }
{
    for s in first..=last {
        put_slot(pool, s, free_slot(next_free(s, last)));
    }
}

// Tree, free slots and header, with L. The root's slot is the first, or 0 if there are no nodes.
fn build_all(pool: &mut [u32], bytes: &[u8], said: Said)
    requires { TopBuildable bytes.now said.nodes said.at × (said.nodes ≤ said.slots) × (said.slots + 1 < 2 ^ 32) }
    ensures { AllBuildSays bytes.now said.slots said.nodes said.level said.at pool.old pool.new }
{
    build_top(pool, bytes, said.nodes, said.at);
    chain_up(pool, said.nodes + 1, said.slots);
    put_header(
        pool,
        Header {
            root: said.nodes.min(1),
            free: next_free(said.nodes, said.slots),
            nodes: said.nodes,
            level: said.level,
        },
    );
}

// "the reader [answers] 0 and N"
#[tactic(auto, using(saved::proofs::Restarts::both, saved::proofs::Restarts::load_length, saved::proofs::Restarts::load_bad, crate::proofs::Filling::load_able, crate::proofs::Filling::load_other))]
pub fn load(pool: &mut [u32], bytes: &[u8]) -> Result<u32, Refusal>
    ensures answer { answer_of result ≡ (load_call pool.old bytes.now).answer }
    ensures pool { pool.new ≡ (load_call pool.old bytes.now).left }
{
    if !length_good(pool) {
        return Err(Refusal::PoolLength);
    }
    let Some(said) = judge_all(bytes) else {
        let byte = place_word(bad_place(bytes));
        return Err(Refusal::BadSaved(byte));
    };
    if said.slots != last_slot(pool) {
        return Err(Refusal::NoFit);
    }
    build_all(pool, bytes, said);
    Ok(said.nodes)
}
