//! What a line of a job says.

ghost use Rattle.std.specs.Prelude.{◌≡◌, IfOk, option_map};
ghost use Rattle.std.specs.Option.{option_copied};
ghost use Rattle.job_graph.specs.Lines.{part, is_end, names_said, retries_said, cut, task_of, line_task};

use crate::names::{is_name, names_in, retries_in};
use crate::parts::parts;
use crate::task::{JobTask, Names};
use cluster_types::sequence::Sequence;
use cluster_types::text::Text;
use std::alloc::{AllocError, Global};

/// The greatest number of octets of a code.
const MOST_OCTETS: usize = 65_536;

/// What stands behind a keyword, where the words begin with it, and the words behind that.
fn part<'a>(keyword: &str, words: &'a [Text]) -> (Option<&'a Text>, &'a [Text])
    ensures value { option_copied result.0 ≡ (part keyword.now words.now).0 }
    ensures rest { result.1.now ≡ (part keyword.now words.now).1 }
{
    match words {
        [word, value, words @ ..] if word.as_str() == keyword => (Some(value), words),
        _ => (None, words),
    }
}

/// Whether nothing stands between the last blank and the colon.
fn is_end(words: &[Text]) -> bool
    ensures { result ≡ is_end words.now }
{
    match words {
        [last] => last.len() == 0,
        _ => false,
    }
}

/// The names that a part lists, none where it is left out.
fn names_said(alloc: Global, value: Option<&Text>) -> Result<Option<Names>, AllocError>
    ensures { IfOk result (λ names. names ≡ names_said (option_copied value.entry)) }
{
    match value {
        None => Ok(Some(Sequence::new(alloc))),
        Some(word) => names_in(alloc, word),
    }
}

/// The number of retries that a part says, 0 where it is left out.
fn retries_said(value: Option<&Text>) -> Option<u32>
    ensures { result ≡ retries_said (option_copied value.entry) }
{
    match value {
        None => Some(0),
        Some(word) => retries_in(word),
    }
}

/// The task that words and a code say, where the words are formed so.
fn task_of(alloc: Global, words: &[Text], code: &str) -> Result<Option<JobTask>, AllocError>
    ensures { IfOk result (λ task. task ≡ task_of words.now code.now) }
{
    let [name, words @ ..] = words else {
        return Ok(None);
    };
    let (after, words) = part("after", words);
    let (follow, words) = part("follow", words);
    let (retries, words) = part("retries", words);
    if !is_name(name) || !is_end(words) {
        return Ok(None);
    }
    let Some(retries) = retries_said(retries) else {
        return Ok(None);
    };
    let Some(after) = names_said(alloc, after)? else {
        return Ok(None);
    };
    let Some(follow) = names_said(alloc, follow)? else {
        return Ok(None);
    };
    let name = name.clone()?;
    let code = Text::new(alloc, code)?;
    Ok(Some(JobTask {
        name,
        after,
        follow,
        retries,
        code,
    }))
}

/// A line up to its first `: `, and what stands behind that.
fn cut(line: &str) -> Option<(&str, &str)>
    ensures { option_map (λ p. (p.0.now, p.1.now)) result ≡ cut line.now }
{
    line.split_once(": ")
}

/// The task of a line, where the line is formed as one.
pub fn line_task(alloc: Global, line: &str) -> Result<Option<JobTask>, AllocError>
    ensures { IfOk result (λ task. task ≡ line_task line.now) }
{
    let Some((front, code)) = cut(line) else {
        return Ok(None);
    };
    if code.len() > MOST_OCTETS {
        return Ok(None);
    }
    let words = parts(alloc, front, ' ')?;
    task_of(alloc, words.as_slice(), code)
}
