// 01, The batch: "A command is an operation number and its arguments [..] At most 256 commands. An empty batch is good."
#![tactic(auto)]

ghost use Rattle.std.specs.Prelude.{◌≡◌};
ghost use Rattle.encoding.specs.Numbers.{number};
ghost use Rattle.encoding.specs.Batch.{arguments_at, command_at, read_batch};
ghost use Rattle.commands.specs.Scanned.{scanned};

use encoding::{Command, Fault, Operation, Reading};
use numbers::number;

pub const MOST_COMMANDS: usize = 256;

// The command at place `at`, or the place of its fault: an unknown operation's is where its number begins.
#[tactic(auto, unfolding(encoding::specs::Batch::command_at, encoding::specs::Batch::operation_at, encoding::specs::Batch::meant_at))]
pub fn command_at(bytes: &[u8], at: usize) -> Reading<Command>
    ensures { result ≡ command_at bytes.now at }
{
    let (n, next) = number(bytes, at)?;
    let operation = Operation::named(n).ok_or(Fault { place: at })?;
    arguments_at(bytes, operation, next)
}

// The arguments of an operation, from place `next` on: one or two.
#[tactic(auto, using(crate::proofs::Commands::only, crate::proofs::Commands::first_wrong, crate::proofs::Commands::both, crate::proofs::Commands::second_wrong))]
fn arguments_at(bytes: &[u8], operation: Operation, next: usize) -> Reading<Command>
    ensures { result ≡ arguments_at bytes.now operation next }
{
    let (first, behind_first) = number(bytes, next)?;
    if operation.arguments() == 1 {
        let command = Command {
            operation,
            first,
            second: 0,
        };
        return Ok((command, behind_first));
    }
    let (second, end) = number(bytes, behind_first)?;
    let command = Command {
        operation,
        first,
        second,
    };
    Ok((command, end))
}

// A whole batch: how many commands it has, or where it goes wrong. 02 (ii): "a 257th command, which counts before any fault inside it".
// From place to place: where the next command begins is known once this one is read.
#[tactic(auto, using(crate::proofs::Scanning::scan_starts, crate::proofs::Scanning::scan_ends, crate::proofs::Scanning::scan_over, crate::proofs::Scanning::scan_fault, crate::proofs::Scanning::scan_good))]
pub fn scan(bytes: &[u8]) -> Result<usize, Fault>
    ensures { result ≡ scanned (read_batch bytes.now) }
{
    let mut count = 0;
    let mut at = 0;
    while at < bytes.len() {
        if count == MOST_COMMANDS {
            return Err(Fault { place: at });
        }
        let (_, next) = command_at(bytes, at)?;
        count += 1;
        at = next;
    }
    Ok(count)
}
