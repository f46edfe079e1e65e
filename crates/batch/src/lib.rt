// 01, The batch: a call reads the whole batch and audits the pool before anything runs; then the commands run in order.
#![tactic(auto)]

ghost use Rattle.std.specs.Prelude.{◌≡◌};
ghost use Rattle.encoding.specs.Batch.{batch};
ghost use Rattle.batch.specs.Answered.{call_code, call_number};
ghost use Rattle.batch.specs.Operated.{perform_on, put_answer};
ghost use Rattle.batch.specs.Ready.{Ready};

use commands::{command_at, scan};
use encoding::{Command, Operation};
use format::Header;
use pool::examine;
use slots::{length_good, put_header, put_word};
use spans::{at_or_above, count_under, delete_span_under};
use steps::{settle_under, step_under};
use tree::{Answer, Refusal};
use updates::{delete_under, insert_under, search_under};

// 01: "Each command fills two answer words, code and number".
const ANSWER_WORDS: usize = 2;

// One command, under the header that the commands before it left.
// The operations are a closed set: of each the compiler asks for its arm.
#[tactic(auto, unfolding(crate::specs::Operated::perform_on, crate::specs::Operated::operated))]
fn perform(pool: &mut [u32], h: &mut Header, c: Command) -> Answer
    ensures answer { result ≡ (perform_on c pool.old h.old).result.answer }
    ensures header { h.new ≡ (perform_on c pool.old h.old).result.header }
    ensures pool { pool.new ≡ (perform_on c pool.old h.old).words }
{
    match c.operation {
        Operation::Search => search_under(pool, h.root, c.first).into(),
        Operation::Insert => insert_under(pool, h, c.first).into(),
        Operation::Delete => delete_under(pool, h, c.first).into(),
        Operation::Step => step_under(pool, h, c.first, c.second).into(),
        Operation::Settle => settle_under(pool, h, c.first),
        Operation::AtOrAbove => at_or_above(pool, h.root, c.first).into(),
        Operation::Count => Answer::Done(count_under(pool, h.root, c.first, c.second)),
        Operation::DeleteSpan => Answer::Done(delete_span_under(pool, h, c.first, c.second)),
    }
}

// An answer's two words, from word `place` on. Past the end nothing is written.
#[tactic(auto, using(crate::proofs::AnswersPut::put_past), unfolding(crate::specs::Operated::put_answer))]
fn put_answer(answers: &mut [u32], place: usize, a: Answer)
    ensures { answers.new ≡ put_answer answers.old place a }
{
    if place < answers.len() {
        put_word(answers, place, a.code());
        put_word(answers, place + 1, a.number());
    }
}

// 01: "Commands run in order and a refused command does not stop the rest." The pool passed the audit with the header h, which is carried
// through the commands and written once, at the end. No other loop goes from command to command and runs them: an iterator would be longer than
// this `while`.
#[tactic(auto, using(crate::proofs::Turns::turn_starts, crate::proofs::Turns::turn_fault, crate::proofs::Turns::turn_place, crate::proofs::Turns::turn_good, crate::proofs::Turns::turn_ends))]
fn run(pool: &mut [u32], mut h: Header, bytes: &[u8], answers: &mut [u32])
    requires { Ready pool.old h bytes.now answers.old }
    ensures pool { pool.new ≡ (batch pool.old bytes.now answers.old).pool }
    ensures answers { answers.new ≡ (batch pool.old bytes.now answers.old).answers }
{
    let mut at: usize = 0;
    let mut place: usize = 0;
    while at < bytes.len() {
        let Ok((c, next)) = command_at(bytes, at) else {
            return;
        };
        let answer = perform(pool, &mut h, c);
        put_answer(answers, place, answer);
        place += ANSWER_WORDS;
        at = next;
    }
    put_header(pool, h);
}

// 01: "Codes 1 to 4 refuse the call, in the order 1, 3, 4, 2, and change no word." "A call that is not refused gives 0 and number 0
// itself."
#[tactic(auto, using(format::proofs::AuditCases::rules_are_kept, crate::proofs::CallTests::call_refuses, crate::proofs::CallTests::place_fits, crate::proofs::CallTests::count_fits, crate::proofs::CallTests::finds_ready, crate::proofs::CallTests::finds_none, crate::proofs::CallTests::test_length, crate::proofs::CallTests::test_few, crate::proofs::CallTests::broken_code, crate::proofs::CallTests::broken_number, crate::proofs::CallTests::broken_pool, crate::proofs::CallTests::broken_answers))]
pub fn batch(pool: &mut [u32], bytes: &[u8], answers: &mut [u32]) -> Result<(), Refusal>
    ensures code { call_code result ≡ (batch pool.old bytes.now answers.old).code }
    ensures number { call_number result ≡ (batch pool.old bytes.now answers.old).number }
    ensures pool { pool.new ≡ (batch pool.old bytes.now answers.old).pool }
    ensures answers { answers.new ≡ (batch pool.old bytes.now answers.old).answers }
{
    if !length_good(pool) {
        return Err(Refusal::PoolLength);
    }
    // By a match: as `map_err(..)?` what is promised of the refusal was not proved.
    let count = match scan(bytes) {
        Ok(count) => count,
        Err(fault) => return Err(Refusal::BadCommand(fault.place as u32)),
    };
    if answers.len() < ANSWER_WORDS * count {
        return Err(Refusal::FewAnswers);
    }
    let h = examine(pool)?;
    run(pool, h, bytes, answers);
    Ok(())
}
