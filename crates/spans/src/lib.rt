// 02 (vii): the smallest key at or above a given one, the number of keys of a span, and deleting them, on a pool's words under a root or a header
// that the caller has; and the same for a pool whose header lies in its first words. On any words they end and are equations; what they mean
// on words that show a sound State is said by `next_shows`, `count_shows` and `span_shows`.
// A span is given by its ends a and b, as a command and the C interface give them: two numbers, and no type of its own.
// Words and header are two parameters, as in crate updates.
#![tactic(auto)]

ghost use Rattle.std.specs.Prelude.{◌≡◌};
ghost use Rattle.tree.specs.declared.Answer.TheVariants.{Done};
ghost use Rattle.tree.specs.Codes.{answer_of};
ghost use Rattle.tree.specs.Tree.{one};
ghost use Rattle.tree.specs.Spans.{within};
ghost use Rattle.spans.specs.Spanning.{turn, turns_to, next_beside, at_or_above, next_answer, visited, tally_from, count_under, next_to, delete_span_under, count_answer, delete_span_answer, delete_span_words};

use format::{Header, Slot};
use slots::{get_header, get_slot, last_slot, one_less, put_header, slots_in};
use tree::Refusal;
use updates::{delete_under, descend};

// Where a search is, and the right child at its last turn to the left, 0 before the first. 01: "0 is no slot", so no Option is needed.
#[derive(Clone, Copy)]
struct Turned {
    slot: u32,
    beside: u32,
}

// 01: "Search goes left when the key is at most the router, else right."
#[tactic(auto, unfolding(crate::specs::Spanning::turn, updates::specs::Updating::toward, crate::specs::Spanning::beside_at))]
fn turn(c: Slot, beside: u32, key: u32) -> Turned
    ensures { result ≡ turn key c beside }
{
    if key <= c.key {
        Turned {
            slot: c.left,
            beside: c.right,
        }
    } else {
        Turned {
            slot: c.right,
            beside,
        }
    }
}

// Where the search for key from slot root on ends. It goes down at most C slots, so it ends on any words. The loop is that of `descend` of crate
// updates, which remembers the parent: one loop for both would carry the parent here and the turn there, and both would have to be known there.
#[tactic(auto, using(crate::proofs::Ways::turns_end, crate::proofs::Ways::turns_on), unfolding(crate::specs::Spanning::turns_to, crate::specs::Spanning::turn, crate::specs::Spanning::turns))]
fn turns(pool: &[u32], root: u32, key: u32) -> Turned
    ensures { result ≡ turns_to pool.now root key }
{
    let mut t = Turned {
        slot: root,
        beside: 0,
    };
    for _ in 0..slots_in(pool) {
        let c = get_slot(pool, t.slot);
        if c.left == 0 {
            break;
        }
        t = turn(c, t.beside, key);
    }
    t
}

// The key where the search for key ends from slot s on: in a sound pool all keys there are above key, and it is the smallest.
#[tactic(auto, unfolding(crate::specs::Spanning::next_beside))]
fn next_beside(pool: &[u32], s: u32, key: u32) -> Result<u32, Refusal>
    ensures { answer_of result ≡ next_beside pool.now key s }
{
    if s == 0 {
        return Err(Refusal::KeyAbsent);
    }
    let w = descend(pool, s, key);
    Ok(get_slot(pool, w.leaf).key)
}

// The smallest key at or above key, in the tree under the root; 6 if there is none. 01: "root slot (0 if empty)". It goes down one way, and where
// that ends below key a second one, each of at most C slots.
#[tactic(auto, unfolding(crate::specs::Spanning::at_or_above, crate::specs::Spanning::next_at))]
pub fn at_or_above(pool: &[u32], root: u32, key: u32) -> Result<u32, Refusal>
    ensures answer { answer_of result ≡ at_or_above pool.now root key }
{
    if root == 0 {
        return Err(Refusal::KeyAbsent);
    }
    let t = turns(pool, root, key);
    let c = get_slot(pool, t.slot);
    if c.key < key {
        return next_beside(pool, t.beside, key);
    }
    Ok(c.key)
}

// Of one line, as count below and updates' search: nothing to share.
#[tactic(auto, unfolding(crate::specs::Spanning::next_answer))]
pub fn next_key(pool: &[u32], key: u32) -> Result<u32, Refusal>
    ensures answer { answer_of result ≡ next_answer pool.now key }
{
    at_or_above(pool, get_header(pool).root, key)
}

// What a walk over a subtree finds: how many keys of the span, and how many slots it may still visit.
#[derive(Clone, Copy)]
struct Tally {
    keys: u32,
    left: u32,
}

// 1 for a key from a to b, else 0.
#[tactic(auto, unfolding(tree::specs::Tree::one))]
fn one_within(a: u32, b: u32, k: u32) -> u32
    ensures { result ≡ one (within a b k) }
{
    u32::from((a..=b).contains(&k))
}

// A slot was visited: so many keys more, one slot fewer to go.
#[tactic(auto, unfolding(crate::specs::Spanning::visited))]
fn visited(t: Tally, keys: u32) -> Tally
    ensures { result ≡ visited t keys }
{
    Tally {
        keys: t.keys.wrapping_add(keys),
        left: one_less(t.left),
    }
}

// The keys from a to b under slot s, at most `deep` slots down, with what was found before; at most t.left slots are visited. All keys on the left
// of a router are at most the router and all on the right are above it, so a side without a key of the span is not entered (`any_visits` and
// `count_visits_lem` in proofs/Visits.antt).
#[tactic(auto, using(crate::proofs::Tallies::tally_deep, crate::proofs::Tallies::tally_many, crate::proofs::Tallies::tally_leaf, crate::proofs::Tallies::tally_inner), unfolding(crate::specs::Spanning::at_router, crate::specs::Spanning::entering))]
fn tally_from(pool: &[u32], a: u32, b: u32, s: u32, deep: u32, t: Tally) -> Tally
    ensures { result ≡ tally_from deep pool.now a b s t }
{
    if deep == 0 || t.left == 0 {
        return t;
    }
    let c = get_slot(pool, s);
    if c.left == 0 {
        return visited(t, one_within(a, b, c.key));
    }
    // a router is no key
    let here = visited(t, 0);
    let l = if a <= c.key {
        tally_from(pool, a, b, c.left, deep - 1, here)
    } else {
        here
    };
    if c.key < b {
        tally_from(pool, a, b, c.right, deep - 1, l)
    } else {
        l
    }
}

// How many keys from a to b stand in the tree under the root.
#[tactic(auto, unfolding(crate::specs::Spanning::count_under))]
pub fn count_under(pool: &[u32], root: u32, a: u32, b: u32) -> u32
    ensures answer { Done result ≡ count_under pool.now root a b }
{
    if root == 0 {
        return 0;
    }
    let slots = last_slot(pool);
    let none = Tally {
        keys: 0,
        left: slots,
    };
    tally_from(pool, a, b, root, slots, none).keys
}

#[tactic(auto, unfolding(crate::specs::Spanning::count_answer))]
pub fn count(pool: &[u32], a: u32, b: u32) -> u32
    ensures answer { Done result ≡ count_answer pool.now a b }
{
    count_under(pool, get_header(pool).root, a, b)
}

// The smallest key from `next` to b, in the tree under the root; 6 if there is none. `next` may be one more than the last 32-bit number.
#[tactic(auto, using(crate::proofs::SpanTurns::not_above_lem, crate::proofs::SpanTurns::above, crate::proofs::SpanTurns::none_at), unfolding(crate::specs::Spanning::next_to))]
fn next_to(pool: &[u32], root: u32, next: u64, b: u32) -> Result<u32, Refusal>
    ensures { answer_of result ≡ next_to pool.now root next b }
{
    if (b as u64) < next {
        return Err(Refusal::KeyAbsent);
    }
    let key = at_or_above(pool, root, next as u32)?;
    if b < key {
        return Err(Refusal::KeyAbsent);
    }
    Ok(key)
}

// 02 (vii): "delete all keys from a to b, smallest first, answering how many went." Each is found as `at_or_above` finds it, and deleted by a way of
// its own; a key that was just found is there, so its delete is not refused. No span has more keys than the pool has slots.
#[tactic(auto, using(crate::proofs::SpanTurns::delete_ends, crate::proofs::SpanTurns::delete_none, crate::proofs::SpanTurns::delete_next), unfolding(crate::specs::Spanning::delete_span_under))]
pub fn delete_span_under(pool: &mut [u32], h: &mut Header, a: u32, b: u32) -> u32
    ensures answer { Done result ≡ (delete_span_under pool.old h.old a b).result.answer }
    ensures header { h.new ≡ (delete_span_under pool.old h.old a b).result.header }
    ensures pool { pool.new ≡ (delete_span_under pool.old h.old a b).words }
{
    let most = last_slot(pool);
    let mut next = a as u64;
    for gone in 0..most {
        let Ok(key) = next_to(pool, h.root, next, b) else {
            return gone;
        };
        let _ = delete_under(pool, h, key);
        next = key as u64 + 1;
    }
    most
}

// As insert of crate updates.
#[tactic(auto, unfolding(crate::specs::Spanning::delete_span_answer, crate::specs::Spanning::delete_span_words))]
pub fn delete_span(pool: &mut [u32], a: u32, b: u32) -> u32
    ensures answer { Done result ≡ delete_span_answer pool.old a b }
    ensures pool { pool.new ≡ delete_span_words pool.old a b }
{
    let mut h = get_header(pool);
    let gone = delete_span_under(pool, &mut h, a, b);
    put_header(pool, h);
    gone
}
