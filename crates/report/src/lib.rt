// Documents 01, Distances, and 02 (iii): the report's seven numbers, counted in two walks down the tree.
#![tactic(auto)]

ghost use Rattle.std.specs.Prelude.{◌≡◌, Ok, pred, ◌+◌, ◌*◌, ◌-◌, ◌≤◌};
ghost use Rattle.tree.specs.Tree.{red};
ghost use Rattle.tree.specs.Distances.{BoundFits};
ghost use Rattle.tree.specs.State.{report};
ghost use Rattle.format.specs.Words.{slot_at};
ghost use Rattle.format.specs.Audit.{state_of, audited};
ghost use Rattle.pool.specs.Standing.{Standing};
ghost use Rattle.report.specs.Counted.{lone_leaf, joined, adding, reds_in, overs_in, Counts, Small, Fits};
ghost use Rattle.report.specs.Report.{told, report_of, figure_at};

use format::{Header, Unsound};
use pool::{allowance, examine};
use slots::get_slot;
use tree::Figures;

// 01: "Weight 0 is red, 1 black, above 1 overweighted."
const RED: u32 = 0;

const BLACK: u32 = 1;

// What a walk finds in a subtree: its nodes, what it counts there, and the distances of that added up.
#[derive(Clone, Copy)]
struct Counted {
    nodes: u64,
    number: u64,
    distance: u64,
}

// A leaf by itself.
fn lone_leaf() -> Counted
    ensures { result ≡ lone_leaf }
{
    Counted {
        nodes: 1,
        number: 0,
        distance: 0,
    }
}

// A node over two subtrees.
fn joined(a: Counted, b: Counted) -> Counted
    requires { Small a × Small b }
    ensures { result ≡ joined a b }
{
    Counted {
        nodes: 1 + a.nodes + b.nodes,
        number: a.number + b.number,
        distance: a.distance + b.distance,
    }
}

// The same subtree with more counted in it.
fn adding(t: Counted, number: u64, distance: u64) -> Counted
    requires { Fits t number distance }
    ensures { result ≡ adding t number distance }
{
    Counted {
        nodes: t.nodes,
        number: number + t.number,
        distance: distance + t.distance,
    }
}

// 01: "outside(u) is N less the number of nodes in u's subtree."
fn outside(n: u32, nodes: u64) -> u64
    requires { nodes ≤ n }
    ensures { result ≡ n - nodes }
{
    n as u64 - nodes
}

// Whether the edge to slot s is red.
#[tactic(auto, using(tree::proofs::Tests::red_test))]
fn is_red(pool: &[u32], s: u32) -> bool
    ensures { result ≡ red (slot_at pool.now s).weight }
{
    get_slot(pool, s).weight == RED
}

// 01: "a node below a red edge adds one conflict per red child edge, a node below any other edge (and the root) adds none, and each
// passes its children to either." The subtree at slot s, in a tree of n nodes, at most `left` nodes deep: its conflicts, and
// outside(u) for each.
// By 01 these are two functions that call each other. Pool and n go along as they are: a struct of the two would be taken apart again in each
// contract.
#[cycle(below_other_below_red_either)]
fn below_red(pool: &[u32], s: u32, n: u32, left: u32) -> Counted
    requires { Standing pool.now s n left }
    ensures { Counts (λ w t. reds_in n 0 t) pool.now s n left result }
{
    let c = get_slot(pool, s);
    if c.left == 0 {
        return lone_leaf();
    }
    let l = is_red(pool, c.left);
    let a = either(pool, l, c.left, n, left - 1);
    let r = is_red(pool, c.right);
    let b = either(pool, r, c.right, n, left - 1);
    let u = joined(a, b);
    let own = u64::from(l) + u64::from(r);
    adding(u, own, own * outside(n, u.nodes))
}

#[cycle(below_other_below_red_either)]
fn below_other(pool: &[u32], s: u32, n: u32, left: u32) -> Counted
    requires { Standing pool.now s n left }
    ensures { Counts (λ w t. reds_in n 1 t) pool.now s n left result }
{
    let c = get_slot(pool, s);
    if c.left == 0 {
        return lone_leaf();
    }
    let a = either(pool, is_red(pool, c.left), c.left, n, left - 1);
    let b = either(pool, is_red(pool, c.right), c.right, n, left - 1);
    joined(a, b)
}

// By 01 each of the two "passes its children to either": a child is passed to the rule of the edge that leads to it.
#[cycle(below_other_below_red_either)]
fn either(pool: &[u32], under_red: bool, s: u32, n: u32, left: u32) -> Counted
    requires { Standing pool.now s n left × (under_red ≡ red (slot_at pool.now s).weight) }
    ensures { Counts (reds_in n) pool.now s n left result }
{
    if under_red {
        below_red(pool, s, n, left)
    } else {
        below_other(pool, s, n, left)
    }
}

// 02 (iii): "weight less one", if the edge is overweighted.
fn excess(weight: u32) -> u64
    ensures { result ≡ pred weight }
{
    u64::from(weight.saturating_sub(BLACK))
}

// 02 (iii): the third number, "the sum of weight less one". 01: "D adds (weight - 1) times outside(u) over overweighted edges to u." Of
// the edges in the subtree at slot s and the one to it. The root's weight is 1 and so counts in nothing.
fn over(pool: &[u32], s: u32, n: u32, left: u32) -> Counted
    requires { Standing pool.now s n left }
    ensures { Counts (overs_in n) pool.now s n left result }
{
    let c = get_slot(pool, s);
    let u = if c.left == 0 {
        lone_leaf()
    } else {
        joined(
            over(pool, c.left, n, left - 1),
            over(pool, c.right, n, left - 1),
        )
    };
    let above = excess(c.weight);
    adding(u, above, above * outside(n, u.nodes))
}

// 01: "(3N+1)D + 2NR + Q".
fn step_bound(n: u64, d: u64, r: u64, q: u64) -> u64
    requires { BoundFits n d r q }
    ensures { result ≡ (3 * n + 1) * d + 2 * n * r + q }
{
    (3 * n + 1) * d + 2 * n * r + q
}

// The indices of the seven numbers.
pub const NODES: u32 = 1;

pub const LEVEL: u32 = 2;

pub const EXCESS_WEIGHT: u32 = 3;

pub const CONFLICTS: u32 = 4;

pub const OVER_DISTANCE: u32 = 5;

pub const RED_DISTANCE: u32 = 6;

pub const BOUND: u32 = 7;

// 01: "takes an index, 1 first, and returns that number, 0 for [..] any other index".
#[tactic(auto, using(crate::proofs::Reports::figure_none), unfolding(crate::specs::Report::figure_at, tree::specs::State::figures))]
pub fn figure_at(f: Figures, index: u32) -> u64
    ensures number { result ≡ figure_at index f }
{
    match index {
        NODES => f.nodes,
        LEVEL => f.level,
        EXCESS_WEIGHT => f.excess_weight,
        CONFLICTS => f.conflicts,
        OVER_DISTANCE => f.over_distance,
        RED_DISTANCE => f.red_distance,
        BOUND => f.bound,
        _ => 0,
    }
}

// The numbers of the tree that the words show, which passed the audit with the header h; L is read there. The walks go no deeper than the
// audit's does.
#[tactic(auto, using(format::proofs::AuditCases::rules_are_kept, pool::proofs::Standing::no_root), unfolding(tree::specs::State::report))]
fn figures(pool: &[u32], h: Header) -> Figures
    requires { audited pool.now ≡ Ok h }
    ensures { result ≡ report (state_of pool.now).top }
{
    if h.root == 0 {
        return Figures::default();
    }
    let left = allowance(pool);
    let reds = below_other(pool, h.root, h.nodes, left);
    let heavy = over(pool, h.root, h.nodes, left);
    let n = h.nodes as u64;
    let l = h.level as u64;
    Figures {
        nodes: n,
        level: l,
        excess_weight: heavy.number,
        conflicts: reds.number,
        over_distance: heavy.distance,
        red_distance: reds.distance,
        bound: step_bound(n, heavy.distance, reds.number, reds.distance),
    }
}

// 01: "audit and report give 0, 1 or 2, the report with seven zeros when refused": with none, and whoever asks a refused report for a number
// gets 0.
#[tactic(auto, unfolding(crate::specs::Report::report_of))]
pub fn report(pool: &[u32]) -> Result<Figures, Unsound>
    ensures report { told result ≡ report_of pool.now }
{
    let h = examine(pool)?;
    Ok(figures(pool, h))
}
