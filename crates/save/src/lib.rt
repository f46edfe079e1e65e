// 02 (i), the writer of the saved form: "C, N, then each node from the root, node before its left subtree before its right: twice the weight,
// plus 1 for an inner node; then the key or router."
#![tactic(auto)]

ghost use Rattle.std.specs.Prelude.{◌≡◌, Ok, ℕ, get_or, [], ◌∷◌, length, ◌+◌, ◌^◌, ◌≤◌, ◌<◌};
ghost use Rattle.format.specs.Audit.{state_of, audited};
ghost use Rattle.pool.specs.Walks.{most_sum};
ghost use Rattle.saved.specs.Saved.{top_numbers, bytes_of_all, saved_bytes};
ghost use Rattle.saved.specs.Calls.{save_into, save_call};
ghost use Rattle.save.specs.Writing.{first_number, Placed, Put, Puts};
ghost use Rattle.std.proofs.lemmas.List.Edits.{sets};
ghost use Rattle.tree.specs.Codes.{answer_of};

use format::{Header, Slot};
use numbers::put_number;
use pool::{allowance, examine};
use slots::{get_slot, last_slot};
use tree::Refusal;

const TWICE: u32 = 2;

// Writes two numbers from place `at` on, and answers the place after them.
// No writer that moves on: where there is no room the place still goes on, which is how the bytes are counted.
// Inline, for speed: a walk that counts has little to do at a node, and a call of this took a tenth of a save (docs/LOOK-BACK.md).
#[tactic(auto, using(crate::proofs::Writing::pair_length_is))]
#[inline(always)]
fn put_pair(out: &mut [u8], at: usize, a: u32, b: u32) -> usize
    requires { at + length (bytes_of_all (a ∷ b ∷ [])) < 2 ^ 64 }
    ensures { Put (a ∷ b ∷ []) out.old out.new at result }
{
    let i = at + put_number(out, at, a);
    i + put_number(out, i, b)
}

// "twice the weight, plus 1 for an inner node"
#[tactic(auto, using(crate::proofs::Writing::first_leaf, crate::proofs::Writing::first_node))]
fn first_number(c: Slot) -> u32
    requires { c.weight ≤ most_sum }
    ensures { result ≡ first_number c }
{
    if c.left == 0 {
        TWICE * c.weight
    } else {
        TWICE * c.weight + 1
    }
}

// Writes the tree at slot s from place `at` on, and answers the place after it: "node before its left subtree before its right".
fn put_tree(pool: &[u32], out: &mut [u8], s: u32, at: usize, left: u32) -> usize
    requires { Placed pool.now s left at }
    ensures { Puts pool.now s left out.old out.new at result }
{
    let c = get_slot(pool, s);
    let i = put_pair(out, at, first_number(c), c.key);
    if c.left == 0 {
        return i;
    }
    let j = put_tree(pool, out, c.left, i, left - 1);
    put_tree(pool, out, c.right, j, left - 1)
}

// A pool that passed the audit, with the header that the audit read.
#[derive(Clone, Copy)]
struct Kept<'a> {
    words: &'a [u32],
    header: Header,
    ghost words_small: { (i : ℕ) → get_or words.now i 0 < 2 ^ 32 },
    ghost passed: { audited words.now ≡ Ok header },
}

impl<'a> Kept<'a> {
    // Writes all its nodes from place `at` on, and answers the place after them: none where the root is 0.
    #[tactic(auto, using(format::proofs::AuditCases::rules_are_kept, crate::proofs::Whole::root_placed))]
    fn put_nodes(self, out: &mut [u8], at: usize) -> usize
        requires { at < 2 ^ 32 }
        ensures { Put (top_numbers (state_of self.entry.words.now).top) out.old out.new at result }
    {
        let h = self.header;
        if h.root == 0 {
            return at;
        }
        put_tree(self.words, out, h.root, at, allowance(self.words))
    }

    // All of it, from the first byte on, as far as there is room; and how many bytes it is.
    #[tactic(auto, using(format::proofs::AuditCases::rules_are_kept, crate::proofs::Writing::pair_most, crate::proofs::Whole::saved_wrote))]
    fn put_saved(self, out: &mut [u8]) -> usize
        ensures count { result ≡ length (saved_bytes (state_of self.entry.words.now)) }
        ensures few { result < 2 ^ 32 }
        ensures out { out.new ≡ sets out.old 0 (saved_bytes (state_of self.entry.words.now)) }
    {
        let h = self.header;
        let slots = last_slot(self.words);
        let at = put_pair(out, 0, slots, h.nodes);
        self.put_nodes(out, at)
    }

    // The bytes are counted before the first is written: a count is a writing for which there is no room.
    #[tactic(auto, using(crate::proofs::Whole::no_fit, crate::proofs::Whole::fit))]
    fn save(self, out: &mut [u8]) -> Result<u32, Refusal>
        ensures answer { answer_of result ≡ (save_into (saved_bytes (state_of self.entry.words.now)) out.old).answer }
        ensures out { out.new ≡ (save_into (saved_bytes (state_of self.entry.words.now)) out.old).left }
    {
        let count = self.put_saved(&mut []);
        if out.len() < count {
            return Err(Refusal::NoFit);
        }
        self.put_saved(out);
        Ok(count as u32)
    }
}

// "The writer takes any pool that passes the audit. [..] The writer answers 0 and the byte count".
#[tactic(auto, using(format::proofs::AuditCases::rules_are_kept, saved::proofs::Restarts::save_kept, crate::proofs::Whole::unsound_refused))]
pub fn save(pool: &[u32], out: &mut [u8]) -> Result<u32, Refusal>
    ensures answer { answer_of result ≡ (save_call pool.now out.old).answer }
    ensures out { out.new ≡ (save_call pool.now out.old).left }
{
    let h = examine(pool)?;
    let kept = Kept {
        words: pool,
        header: h,
    };
    kept.save(out)
}
