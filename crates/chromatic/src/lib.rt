// What a host calls: prepare, audit, report, batch, save, load, and the send limit's two, on numbers and lent slices. Each takes any words and
// any bytes. And one function whose name carries the number of the interface. These signatures are the C interface (docs/INTERFACE.md): they take
// and return plain numbers and lent slices, and stay as they are.
#![tactic(auto)]

ghost use Rattle.std.specs.Prelude.{◌≡◌};
ghost use Rattle.encoding.specs.Batch.{batch as call};
ghost use Rattle.format.specs.Audit.{audited_code, audit_code};
ghost use Rattle.pool.specs.Results.{prepare_code, prepared_words};
ghost use Rattle.tree.specs.Codes.{answer_of};
ghost use Rattle.saved.specs.Calls.{save_call, load_call};
ghost use Rattle.ledger.specs.Ledger.{may_send, clear_notice};
ghost use Rattle.chromatic.specs.Exports.{number_at, returned, returned_answer, interface_number};

use format::Unsound;
use ledger::{clear_notice, may_send};
use load::load;
use pool::{audit, prepare};
use report::{figure_at, report};
use save::save;
use tree::{Answer, Refusal};

// 01: "The exported batch returns its code times 4,294,967,296 plus its number." So do save, load and the send limit's two.
const CODE_UNIT: u64 = 4294967296;

#[tactic(auto, unfolding(crate::specs::Exports::returned_answer, crate::specs::Exports::in_one_word))]
fn one_word(done: Result<u32, Refusal>) -> u64
    ensures { result ≡ returned_answer (answer_of done) }
{
    let answer = Answer::from(done);
    u64::from(answer.code()) * CODE_UNIT + u64::from(answer.number())
}

// The code of prepare and of the audit.
fn code(done: Result<(), Unsound>) -> u32
    ensures { result ≡ audited_code done }
{
    match done {
        Ok(()) => Answer::DONE,
        Err(cause) => Refusal::from(cause).code(),
    }
}

const INTERFACE: u32 = 8;

// A host that was made for another interface calls another name, and does not link. The number goes up, here and in the name, with each
// change of a signature, of what a number means, of the pool's words or of what is accepted.
#[unsafe(no_mangle)]
pub extern "C" fn chromatic_interface_8() -> u32
    ensures number { result ≡ interface_number }
{
    INTERFACE
}

// 0, or 1 when the pool's length is wrong.
#[unsafe(no_mangle)]
pub extern "C" fn chromatic_prepare(pool: &mut [u32]) -> u32
    ensures code { result ≡ prepare_code pool.old }
    ensures pool { pool.new ≡ prepared_words pool.old }
{
    code(prepare(pool))
}

// 0, or 1 when the pool's length is wrong, or 2 when a rule is broken.
#[unsafe(no_mangle)]
pub extern "C" fn chromatic_audit(pool: &[u32]) -> u32
    ensures code { result ≡ audit_code pool.now }
{
    code(audit(pool))
}

// 01: "takes an index, 1 first, and returns that number, 0 for a refused pool or any other index."
#[tactic(auto, using(report::proofs::Exact::zero_at), unfolding(crate::specs::Exports::number_at))]
#[unsafe(no_mangle)]
pub extern "C" fn chromatic_report(pool: &[u32], index: u32) -> u64
    ensures number { result ≡ number_at pool.now index }
{
    match report(pool) {
        Ok(figures) => figure_at(figures, index),
        Err(_) => 0,
    }
}

#[tactic(auto, using(crate::proofs::Called::called))]
#[unsafe(no_mangle)]
pub extern "C" fn chromatic_batch(pool: &mut [u32], batch: &[u8], answers: &mut [u32]) -> u64
    ensures result { result ≡ returned (call pool.old batch.now answers.old) }
    ensures pool { pool.new ≡ (call pool.old batch.now answers.old).pool }
    ensures answers { answers.new ≡ (call pool.old batch.now answers.old).answers }
{
    one_word(batch::batch(pool, batch, answers).and(Ok(0)))
}

// 02 (i): "The writer answers 0 and the byte count [..]; output bytes past the count stay."
#[unsafe(no_mangle)]
pub extern "C" fn chromatic_save(pool: &[u32], out: &mut [u8]) -> u64
    ensures result { result ≡ returned_answer (save_call pool.now out.old).answer }
    ensures out { out.new ≡ (save_call pool.now out.old).left }
{
    one_word(save(pool, out))
}

// 02 (i): "the reader [answers] 0 and N". The pool may hold any words.
#[unsafe(no_mangle)]
pub extern "C" fn chromatic_load(pool: &mut [u32], saved: &[u8]) -> u64
    ensures result { result ≡ returned_answer (load_call pool.old saved.now).answer }
    ensures pool { pool.new ≡ (load_call pool.old saved.now).left }
{
    one_word(load(pool, saved))
}

// 02 (iv): "Yes is code 0 and the attempt", which is marked then. Refusals in the order 15, 1, 2, 16, 7.
#[unsafe(no_mangle)]
pub extern "C" fn chromatic_may_send(
    pool: &mut [u32],
    notice: u32,
    resident: u32,
    limit: u32,
) -> u64
    ensures result { result ≡ returned_answer (may_send pool.old notice resident limit).answer }
    ensures pool { pool.new ≡ (may_send pool.old notice resident limit).left }
{
    one_word(may_send(pool, notice, resident, limit))
}

// 02 (iv): "clearing code 0 and how many marks went". Refusals in the order 15, 1, 2.
#[unsafe(no_mangle)]
pub extern "C" fn chromatic_clear_notice(pool: &mut [u32], notice: u32) -> u64
    ensures result { result ≡ returned_answer (clear_notice pool.old notice).answer }
    ensures pool { pool.new ≡ (clear_notice pool.old notice).left }
{
    one_word(clear_notice(pool, notice))
}
