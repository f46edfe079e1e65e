// The set, for a product above it: its operations, each an entry of a pool, and in proofs/Promises.antt what they promise. A crate above
// calls these, cites that page and specs/, and needs nothing behind them.
#![tactic(auto)]

ghost use Rattle.std.specs.Prelude.{◌≡◌};
ghost use Rattle.tree.specs.Codes.{answer_of};
ghost use Rattle.set.specs.Inside.{audit_answer};

use pool::examine;
pub use spans::{count, delete_span, next_key};
use tree::Refusal;
pub use updates::{delete, insert, search};

// The audit, as an answer: refused with 1 or 2, or done.
// 0 beside Ok, as each operation of the set answers a number.
#[tactic(auto, unfolding(crate::specs::Inside::audit_answer))]
pub fn audit_answer(pool: &[u32]) -> Result<u32, Refusal>
    ensures { answer_of result ≡ audit_answer pool.now }
{
    examine(pool)?;
    Ok(0)
}
