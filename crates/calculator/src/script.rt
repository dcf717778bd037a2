// A script of commands, one to a line, and the answers to it.
ghost use Rattle.std.specs.Prelude.{◌≡◌, ◌^◌, ◌≤◌, ◌++◌, length, IfOk, string_bytes, OnOk};
ghost use Rattle.bank.specs.Content.{blank};
ghost use Rattle.calculator.specs.Laws.{AnswersStand, CommentsPass, LinesAnswered};
ghost use Rattle.tokens.specs.Lines.{script_lines};
ghost use Rattle.calculator.specs.Script.{content_line, line_text, lines_text, reply_line, script_text};

use crate::laws;
use crate::reply::Reply;
use bank::Bank;
use std::alloc::{AllocError, Global};
use tokens::{Lines, silent};

// The most bytes that a script has.
pub const LIMIT: usize = 1_048_576;

// The answers to a script, on a new bank.
pub fn answers(heap: Global, script: &[u8]) -> Result<String, AllocError>
    ensures text { IfOk result (λ t. string_bytes t ≡ script_text script.now) }
    ensures comments { CommentsPass }
    ensures stand { AnswersStand }
    ensures lines { LinesAnswered }
{
    laws::comments_pass();
    laws::answers_stand();
    laws::lines_answered();
    if script.len() > LIMIT {
        return String::from_str(heap, "script too long\n");
    }
    answer_lines(heap, script)
}

// The answers to the lines of a script that is not too long.
fn answer_lines(heap: Global, script: &[u8]) -> Result<String, AllocError>
    requires { length script.now ≤ 2 ^ 20 }
    ensures { IfOk result (λ t. string_bytes t ≡ lines_text blank 0 (script_lines script.now)) }
{
    let mut bank = Bank::new();
    let mut text = String::new(heap);
    for (index, line) in Lines::of(script).enumerate() {
        answer_line(&mut text, &mut bank, index, line)?;
    }
    Ok(text)
}

// Adds the answer to a line, unless the line is blank or a comment.
fn answer_line(
    text: &mut String,
    bank: &mut Bank,
    index: usize,
    line: &[u8],
) -> Result<(), AllocError>
    ensures text { OnOk result (string_bytes text.new ≡ string_bytes text.old ++ line_text bank.old index line.now) }
    ensures after { bank.new ≡ content_line bank.old line.now }
{
    if silent(line) {
        return Ok(());
    }
    push_reply(text, index, Reply::to(line, bank))
}

// Adds a reply as a line, behind the index of the line that it answers.
fn push_reply(text: &mut String, index: usize, reply: Reply) -> Result<(), AllocError>
    ensures { OnOk result (string_bytes text.new ≡ string_bytes text.old ++ reply_line index reply.0) }
{
    write!(text, "{index} {reply}\n").map_err(|_| AllocError)
}
