// What the program prints, made in lent memory from the bytes that it read: nothing here reads or writes a file.
#![tactic(auto)]

ghost use Rattle.std.specs.Prelude.{◌+◌, ◌*◌, ◌/◌, ◌≤◌, ◌≡◌, ◌++◌, length, take};
ghost use Rattle.std.proofs.lemmas.List.Edits.{sets};
ghost use Rattle.tree.specs.Codes.{code, number_beside};
ghost use Rattle.encoding.specs.Batch.{most_commands, read_batch};
ghost use Rattle.lines.specs.Printed.{line, line_bytes, most_printed, lines, refused_line, how_many, printed};

use arrayvec::ArrayString;
use commands::{MOST_COMMANDS, scan};
use itoa::Buffer;
use pool::prepare;
use tree::Refusal;

// 01: "The program prepares 127 slots": 4 header words and 4 for each slot.
const POOL_WORDS: usize = 512;
// Each command of a batch has two answer words.
const ANSWER_WORDS: usize = 2;

const ANSWERS: usize = ANSWER_WORDS * MOST_COMMANDS;
// A word has at most ten digits; a line is two words, a space and a newline.
const MOST_DIGITS: usize = 10;

const LINE_BYTES: usize = 2 * MOST_DIGITS + 2;

pub const MOST_PRINTED: usize = MOST_COMMANDS * LINE_BYTES;

type Text = ArrayString<MOST_PRINTED>;

// 01: "per command one line, code, space, number".
fn put_line(text: &mut Text, code: u32, number: u32)
    requires { length text.old.bytes + line_bytes ≤ most_printed }
    ensures { text.new.bytes ≡ text.old.bytes ++ line code number }
{
    let mut digits = Buffer::new();
    text.push_str(digits.format(code));
    text.push(' ');
    text.push_str(digits.format(number));
    text.push('\n');
}

// 01: "for a call refused whole, "refused", space, code, space, number."
#[tactic(auto, unfolding(crate::specs::Printed::refused_line))]
fn put_refused(text: &mut Text, refusal: Refusal)
    requires { length text.old.bytes + 8 + line_bytes ≤ most_printed }
    ensures { text.new.bytes ≡ text.old.bytes ++ refused_line (code refusal) (number_beside refusal) }
{
    text.push_str("refused ");
    put_line(text, refusal.code(), refusal.number());
}

// The lines of the answers, two words each.
#[tactic(auto, using(crate::proofs::Texts::putting_starts, crate::proofs::Texts::putting_room, crate::proofs::Texts::putting_more, crate::proofs::Texts::putting_ends))]
fn put_lines(text: &mut Text, answers: &[u32])
    requires { length text.old.bytes + line_bytes * (length answers.now / 2) ≤ most_printed }
    ensures { text.new.bytes ≡ text.old.bytes ++ lines (length answers.now / 2) answers.now }
{
    for answer in answers.chunks_exact(ANSWER_WORDS) {
        put_line(text, answer[0], answer[1]);
    }
}

#[tactic(auto, using(crate::proofs::Batches::few, crate::proofs::Batches::counted))]
fn commands_in(bytes: &[u8]) -> usize
    ensures few { result ≤ most_commands }
    ensures count { result ≡ how_many (read_batch bytes.now) }
{
    scan(bytes).unwrap_or(0)
}

// 01: "The program prepares 127 slots [..] and prints per command one line".
fn text_of(bytes: &[u8]) -> Text
    ensures { result.bytes ≡ printed bytes.now }
{
    // of fixed size, for there is no heap
    let mut pool = [0u32; POOL_WORDS];
    let mut answers = [0u32; ANSWERS];
    let _ = prepare(&mut pool);
    let mut text = Text::new();
    match batch::batch(&mut pool, bytes, &mut answers) {
        Ok(()) => {
            let count = commands_in(bytes);
            put_lines(&mut text, &answers[..ANSWER_WORDS * count]);
        }
        Err(refusal) => put_refused(&mut text, refusal),
    }
    text
}

// What the program prints, and how many bytes that is.
// Into lent memory, with the count: the promise says that the bytes after it stay.
pub fn render(bytes: &[u8], out: &mut [u8; MOST_PRINTED]) -> usize
    ensures count { result ≡ length (printed bytes.now) }
    ensures out { out.new ≡ sets out.old 0 (printed bytes.now) }
    ensures text { (result ≤ length out.new) × (take result out.new ≡ printed bytes.now) }
{
    let text = text_of(bytes);
    let count = text.len();
    out[..count].copy_from_slice(text.as_bytes());
    count
}
