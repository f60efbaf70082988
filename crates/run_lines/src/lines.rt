//! Single lines.

ghost use Rattle.std.specs.Prelude.{◌≡◌, ◌++◌, ◌∷◌, [], OnOk, get_or};
ghost use Rattle.std.specs.Fmt.{signed_decimal};
ghost use Rattle.run_lines.specs.Lines.{behind_blank, answer_text, outcome_text, line_at};

use crate::labels::Labels;
use client_core::answered::Answered;
use cluster_types::message::WordList;
use cluster_types::text::Text;
use itoa::Buffer;
use std::alloc::AllocError;

/// Puts the decimal text of a number at the end.
fn push_number(text: &mut Vec<u8>, number: i64) -> Result<(), AllocError>
    ensures { OnOk result (text.new.items ≡ text.old.items ++ signed_decimal number) }
{
    let mut buffer = Buffer::new();
    text.extend_from_slice(buffer.format(number).as_bytes())
}

/// Puts a text at the end, with a blank ahead where it isn't empty.
fn push_behind_blank(text: &mut Vec<u8>, words: &Text) -> Result<(), AllocError>
    ensures { OnOk result (text.new.items ≡ text.old.items ++ behind_blank words.now) }
{
    match words.as_slice() {
        [] => Ok(()),
        octets => {
            text.push(b' ')?;
            text.extend_from_slice(octets)
        }
    }
}

/// Puts an error at the end.
#[tactic(auto, unfolding(crate::specs::Lines::error_words))]
fn push_error(text: &mut Vec<u8>, ename: &Text, evalue: &Text) -> Result<(), AllocError>
    ensures { OnOk result (text.new.items ≡ text.old.items ++ answer_text (Answered.Failed ename.now evalue.now)) }
{
    text.extend_from_slice(b"error ")?;
    text.extend_from_slice(ename.as_slice())?;
    push_behind_blank(text, evalue)
}

/// Puts what a code answered at the end.
fn push_answer(text: &mut Vec<u8>, answer: &Answered) -> Result<(), AllocError>
    ensures { OnOk result (text.new.items ≡ text.old.items ++ answer_text answer.now) }
{
    match answer {
        Answered::Value(number) => push_number(text, *number),
        Answered::Failed { ename, evalue } => push_error(text, ename, evalue),
    }
}

/// Puts what a task came to at the end.
#[tactic(auto, unfolding(crate::specs::Lines::failed_word))]
fn push_outcome(text: &mut Vec<u8>, answer: &Answered) -> Result<(), AllocError>
    ensures { OnOk result (text.new.items ≡ text.old.items ++ outcome_text answer.now) }
{
    match answer {
        Answered::Value(number) => push_number(text, *number),
        Answered::Failed { .. } => text.extend_from_slice(b"failed"),
    }
}

/// Puts the name at a place at the end, where there is one.
fn push_name(text: &mut Vec<u8>, names: &WordList, place: usize) -> Result<(), AllocError>
    ensures { OnOk result (text.new.items ≡ text.old.items ++ get_or names.now place []) }
{
    match names.get(place) {
        Some(name) => text.extend_from_slice(name.as_slice()),
        None => Ok(()),
    }
}

/// Puts the line of an answer at the end.
pub fn push_line(
    text: &mut Vec<u8>,
    labels: &Labels,
    place: usize,
    answer: &Answered,
) -> Result<(), AllocError>
    ensures { OnOk result (text.new.items ≡ text.old.items ++ line_at labels.now place answer.now) }
{
    match labels {
        Labels::Codes => push_answer(text, answer)?,
        Labels::Tasks(names) => {
            push_name(text, names, place)?;
            text.push(b' ')?;
            push_outcome(text, answer)?;
        }
    }
    text.push(b'\n')?;
    Ok(())
}
