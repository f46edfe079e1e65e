// 02 (iv): no more than the allowed number of texts. A product above the set: it calls the set's operations and rests on what they promise
// (crate set's page Promises), and on nothing behind them.
#![tactic(auto)]

ghost use Rattle.std.specs.Prelude.{◌≡◌, ◌+◌, ◌≤◌, ◌<◌, IfSome};
ghost use Rattle.std.specs.Option.{unwrap_or};
ghost use Rattle.set.specs.Operations.{key_end, answer_of};
ghost use Rattle.set.specs.Set.{Passing};
ghost use Rattle.ledger.specs.Ledger.{most_attempts, notice_good, arguments_good, notice_keys, lowest_from, asked, may_send, cleared_at, cleared_from, clear_notice};

use set::{audit_answer, delete, insert, next_key, search};
use tree::Refusal;

// 02 (iv): "A notice number from 1 to 65,535 and a resident number from 0 to 8,191 are given, with a limit from 1 to 7."
pub const MOST_NOTICE: u32 = 65535;

pub const MOST_RESIDENT: u32 = 8191;

pub const MOST_ATTEMPTS: u32 = 7;
// 02 (iv): "The key is notice times 65,536 plus resident times 8 plus the attempt": so many keys has a notice, and a resident of it.
const NOTICE_KEYS: u32 = 65536;

const RESIDENT_KEYS: u32 = 8;

#[tactic(auto, using(crate::proofs::Arguments::notice_low, crate::proofs::Arguments::notice_from_one))]
fn notice_good(notice: u32) -> bool
    ensures { result ≡ notice_good notice }
{
    (1..=MOST_NOTICE).contains(&notice)
}

#[tactic(auto, using(crate::proofs::Arguments::notice_refused, crate::proofs::Arguments::resident_refused, crate::proofs::Arguments::limit_refused, crate::proofs::Arguments::limit_decides))]
fn arguments_good(notice: u32, resident: u32, limit: u32) -> bool
    ensures { result ≡ arguments_good notice resident limit }
{
    notice_good(notice) && resident <= MOST_RESIDENT && (1..=MOST_ATTEMPTS).contains(&limit)
}

// `Passing` stands in four private contracts. It was tried as a ghost field of a struct over the lent pool: the check takes it there cut down to a
// proposition alone (`∥ .. ∥₁`), and of that form no proof was found after a write.
//
// The lowest attempt from 1 to the limit that is not marked: at most `limit` searches. The key `first` is that of attempt 0.
#[tactic(auto, using(crate::proofs::Asking::lowest_here, crate::proofs::Asking::lowest_on, crate::proofs::Asking::lowest_none, crate::proofs::Asking::search_misses, crate::proofs::Asking::search_finds))]
fn lowest_unmarked(pool: &[u32], first: u32, limit: u32) -> Option<u32>
    requires passes { Passing pool.now }
    requires fits { first + limit < key_end }
    requires few { limit ≤ most_attempts }
    ensures lowest { unwrap_or result 0 ≡ lowest_from limit 1 first pool.now }
    ensures from_one { IfSome result (λ attempt. 1 ≤ attempt) }
{
    for attempt in 1..=limit {
        if search(pool, first + attempt).is_err() {
            return Some(attempt);
        }
    }
    None
}

// 02 (iv): the lowest unmarked attempt "is marked in the same call before the answer is yes". An insert of a key that is not there is
// refused for one cause alone, no room.
#[tactic(auto, using(crate::proofs::Asking::asked_used, crate::proofs::Asking::found_within, crate::proofs::Asking::asked_lacking, crate::proofs::Asking::asked_yes))]
fn ask(pool: &mut [u32], first: u32, limit: u32) -> Result<u32, Refusal>
    requires passes { Passing pool.old }
    requires fits { first + limit < key_end }
    requires few { limit ≤ most_attempts }
    ensures answer { answer_of result ≡ (asked pool.old first limit).answer }
    ensures pool { pool.new ≡ (asked pool.old first limit).left }
{
    let Some(attempt) = lowest_unmarked(pool, first, limit) else {
        return Err(Refusal::AllUsed);
    };
    if insert(pool, first + attempt).is_err() {
        return Err(Refusal::NoRoom);
    }
    Ok(attempt)
}

// May this text go? Yes is code 0 and the attempt, whose mark is then in the set. Refusals in the order 15, 1, 2, 16, 7.
#[tactic(auto, using(crate::proofs::Arguments::arguments_good_is, crate::proofs::Judging::audit_passing, crate::proofs::Judging::sending_outside, crate::proofs::Judging::sending_unaudited, crate::proofs::Judging::sending_asks))]
pub fn may_send(pool: &mut [u32], notice: u32, resident: u32, limit: u32) -> Result<u32, Refusal>
    ensures answer { answer_of result ≡ (may_send pool.old notice resident limit).answer }
    ensures pool { pool.new ≡ (may_send pool.old notice resident limit).left }
{
    if !arguments_good(notice, resident, limit) {
        return Err(Refusal::OutOfRange);
    }
    audit_answer(pool)?;
    ask(pool, notice * NOTICE_KEYS + resident * RESIDENT_KEYS, limit)
}

// A key of the notice: if it is a mark, it is deleted. How many went: 1, or 0.
// A count and no flag: the counts are added up.
#[tactic(auto, using(crate::proofs::Cleared::at_attempt_0, crate::proofs::Cleared::at_kept, crate::proofs::Cleared::at_gone))]
fn clear_at(pool: &mut [u32], key: u32) -> u32
    requires passes { Passing pool.old }
    ensures count { result ≡ (cleared_at key pool.old).count }
    ensures pool { pool.new ≡ (cleared_at key pool.old).words }
{
    if key % RESIDENT_KEYS == 0 {
        return 0;
    }
    if delete(pool, key).is_err() {
        return 0;
    }
    1
}

// The marks among a notice's keys, from the first one on, smallest first: from one key that is in the set to the next. The last notice's
// keys end with the last 32-bit number, so the key after them needs 64 bits. No range or iterator serves: where the loop goes on is what
// next_key answers, on a pool that the loop changes.
#[tactic(auto, using(crate::proofs::Cleared::at_says, crate::proofs::Cleared::turn_starts, crate::proofs::Cleared::turn_ends, crate::proofs::Cleared::turn_none, crate::proofs::Cleared::turn_beyond, crate::proofs::Cleared::turn_later, crate::proofs::Cleared::turn_on))]
fn clear_from(pool: &mut [u32], first: u32) -> u32
    requires passes { Passing pool.old }
    requires fits { first + notice_keys ≤ key_end }
    ensures count { result ≡ (cleared_from notice_keys first pool.old).count }
    ensures pool { pool.new ≡ (cleared_from notice_keys first pool.old).words }
{
    let end = first as u64 + NOTICE_KEYS as u64;
    let mut next = first as u64;
    let mut count: u32 = 0;
    while next < end {
        let Ok(key) = next_key(pool, next as u32) else {
            return count;
        };
        if end <= key as u64 {
            return count;
        }
        count += clear_at(pool, key);
        next = key as u64 + 1;
    }
    count
}

// Clears a notice: code 0 and how many marks went. Refusals in the order 15, 1, 2.
#[tactic(auto, using(crate::proofs::Arguments::notice_good_is, crate::proofs::Judging::audit_passing, crate::proofs::Judging::clearing_outside, crate::proofs::Judging::clearing_unaudited, crate::proofs::Judging::clearing_clears), unfolding(crate::specs::Ledger::clearing))]
pub fn clear_notice(pool: &mut [u32], notice: u32) -> Result<u32, Refusal>
    ensures answer { answer_of result ≡ (clear_notice pool.old notice).answer }
    ensures pool { pool.new ≡ (clear_notice pool.old notice).left }
{
    if !notice_good(notice) {
        return Err(Refusal::OutOfRange);
    }
    audit_answer(pool)?;
    Ok(clear_from(pool, notice * NOTICE_KEYS))
}
