// Prepare and audit. Every function here takes any words: none has a `requires`.
#![tactic(auto)]

ghost use Rattle.std.specs.Prelude.{◌≡◌};
ghost use Rattle.format.specs.Audit.{audited, audited_code, audit_code};
ghost use Rattle.pool.specs.Results.{prepare_code, prepared_words};
ghost use Rattle.pool.specs.Standing.{allowance};
ghost use Rattle.pool.specs.Walks.{FreeSays};
ghost use Rattle.pool.specs.Visits.{leaf_walk, join_walk, tree_tour, top_tour, chain_tour, audit_tour};

use format::{Header, Slot, Unsound};
use slots::{
    free_slot, get_header, get_slot, is_slot, last_slot, length_good, put_header, put_slot,
    slots_in,
};
use tree::MOST_LEVEL;

// 01: "The root's is 1 and counts in nothing."
pub const ROOT_WEIGHT: u32 = 1;
// "Keys may be any 32-bit number": each is below this.
pub const KEY_END: u64 = 4294967296;

// 01: "Prepare makes a pool empty: header 0, 1, 0, 0, all slots free, chained 1, 2, .. C."
#[tactic(auto, using(format::proofs::Shown::good_length, crate::proofs::Prepares::chaining_first, crate::proofs::Prepares::chaining_more, crate::proofs::Prepares::prepare_refused, crate::proofs::Prepares::prepare_done))]
pub fn prepare(pool: &mut [u32]) -> Result<(), Unsound>
    ensures code { audited_code result ≡ prepare_code pool.old }
    ensures pool { pool.new ≡ prepared_words pool.old }
{
    if !length_good(pool) {
        return Err(Unsound::Length);
    }
    let last = slots_in(pool) as u32;
    put_header(
        pool,
        Header {
            root: 0,
            free: 1,
            nodes: 0,
            level: 0,
        },
    );
    // load's chain_up chains a part of the slots, under a tree; here it is all of them.
    for s in 1..last {
        put_slot(pool, s, free_slot(s + 1));
    }
    put_slot(pool, last, free_slot(0));
    Ok(())
}

// How deep a walk down a tree may go: (C + 1) / 2, since a tree of n nodes is at most (n + 1) / 2 nodes deep.
pub fn allowance(pool: &[u32]) -> u32
    ensures { result ≡ allowance pool.now }
{
    (last_slot(pool) + 1) / 2
}

// What a walk over a tree finds where there is no fault: how many of the nodes that it may have are left over, and what the weights from
// the edge above it down to each leaf add up to.
#[derive(Clone, Copy)]
pub struct Whole {
    pub rest: u32,
    pub sum: u32,
}

// The largest such sum: L, and the weight of the root, which counts in nothing and is taken off at the end.
const MOST_SUM: u32 = MOST_LEVEL + ROOT_WEIGHT;

// A slot whose left is 0, as a leaf with its key from lo to below hi. This and `join` are the rules of a tree's leaves and nodes, for the
// audit's walk and for the reader of the saved form.
// lo and hi: two numbers and no Range, which is no Copy.
#[tactic(auto, unfolding(crate::specs::Visits::leaf_walk))]
pub fn walk_leaf(c: Slot, lo: u64, hi: u64, rest: u32) -> Option<Whole>
    ensures { result ≡ leaf_walk c lo hi rest }
{
    if c.right != 0 || !(1..=MOST_SUM).contains(&c.weight) || !(lo..hi).contains(&(c.key as u64)) {
        return None;
    }
    Some(Whole {
        rest,
        sum: c.weight,
    })
}

// An edge of weight w to an inner node, whose subtrees have the sums al and bl.
#[tactic(auto, unfolding(crate::specs::Visits::join_walk))]
pub fn join(w: u32, rest: u32, al: u32, bl: u32) -> Option<Whole>
    ensures { result ≡ join_walk w rest al bl }
{
    let sum = w.checked_add(al)?;
    if al != bl || MOST_SUM < sum {
        return None;
    }
    Some(Whole { rest, sum })
}

// The tree at slot s, its keys from lo to below hi, at most `left` nodes deep, of at most `most` nodes. A right side may have the nodes
// that its left side left over, and the first fault ends the walk: at most most + 1 calls in all, on any words (`tree_visits` in
// proofs/Visits.antt).
#[tactic(auto, using(crate::proofs::Tours::tour_deep, crate::proofs::Tours::tour_many, crate::proofs::Tours::tour_outside, crate::proofs::Tours::tour_leaf, crate::proofs::Tours::tour_inner, crate::proofs::Tours::inner_left, crate::proofs::Tours::inner_right, crate::proofs::Tours::inner_both))]
fn walk_tree(pool: &[u32], s: u32, lo: u64, hi: u64, left: u32, most: u32) -> Option<Whole>
    ensures { result ≡ (tree_tour left pool.now s lo hi most).answer }
{
    if left < 1 || most < 1 || !is_slot(pool, s) {
        return None;
    }
    let c = get_slot(pool, s);
    if c.left == 0 {
        return walk_leaf(c, lo, hi, most - 1);
    }
    let mid = c.key as u64 + 1;
    let l = walk_tree(pool, c.left, lo, mid, left - 1, most - 1)?;
    let r = walk_tree(pool, c.right, mid, hi, left - 1, l.rest)?;
    join(c.weight, r.rest, l.sum, r.sum)
}

// The whole tree, none where the root is 0: the nodes left over, and L.
#[tactic(auto, using(crate::proofs::Visits::sum_from_weight), unfolding(crate::specs::Visits::top_tour))]
fn walk_top(pool: &[u32], root: u32, left: u32, most: u32) -> Option<Whole>
    ensures { result ≡ (top_tour pool.now root left most).answer }
{
    if root == 0 {
        return Some(Whole { rest: most, sum: 0 });
    }
    if get_slot(pool, root).weight != ROOT_WEIGHT {
        return None;
    }
    let t = walk_tree(pool, root, 0, KEY_END, left, most)?;
    Some(Whole {
        sum: t.sum - ROOT_WEIGHT,
        ..t
    })
}

fn is_free(c: Slot) -> bool
    ensures { FreeSays c result }
{
    c == free_slot(c.left)
}

// Whether the free chain from slot `first` on has n slots and ends there.
#[tactic(auto, using(crate::proofs::Tours::free_decided, crate::proofs::Tours::turn_outside, crate::proofs::Tours::turn_taken, crate::proofs::Tours::turn_next, crate::proofs::Tours::turn_end))]
fn walk_chain(pool: &[u32], first: u32, n: u32) -> bool
    ensures { result ≡ (chain_tour n pool.now first).answer }
{
    let mut s = first;
    for _ in 0..n {
        if !is_slot(pool, s) {
            return false;
        }
        let c = get_slot(pool, s);
        if !is_free(c) {
            return false;
        }
        s = c.left;
    }
    s == 0
}

// The audit as it is walked. The chain may have C - N slots and the tree N nodes: at most C + 1 visits in all, on any words, and C where
// the pool passes (`audit_visits_lem` and `passed_visits` in proofs/Visits.antt).
#[tactic(auto, using(format::proofs::Shown::good_length), unfolding(crate::specs::Visits::audit_tour, crate::specs::Visits::walks_tour))]
fn walk_all(pool: &[u32]) -> Result<Header, Unsound>
    ensures { result ≡ (audit_tour pool.now).answer }
{
    if !length_good(pool) {
        return Err(Unsound::Length);
    }
    let slots = slots_in(pool) as u32;
    let h = get_header(pool);
    if slots < h.nodes || !walk_chain(pool, h.free, slots - h.nodes) {
        return Err(Unsound::Broken);
    }
    let top = walk_top(pool, h.root, allowance(pool), h.nodes).ok_or(Unsound::Broken)?;
    if top.rest != 0 || top.sum != h.level {
        return Err(Unsound::Broken);
    }
    Ok(h)
}

// The audit: the header of a pool that keeps the rules, or why it does not.
#[tactic(auto, using(crate::proofs::Audits::audit_tour_lem))]
pub fn examine(pool: &[u32]) -> Result<Header, Unsound>
    ensures { result ≡ audited pool.now }
{
    walk_all(pool)
}

// The audit, without the header. Its number, 0, 1 or 2, is made by whoever exports it.
#[tactic(auto, unfolding(format::specs::Audit::audit_code))]
pub fn audit(pool: &[u32]) -> Result<(), Unsound>
    ensures code { audited_code result ≡ audit_code pool.now }
{
    examine(pool)?;
    Ok(())
}
