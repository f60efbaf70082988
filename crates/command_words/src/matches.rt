//! The words behind a command, read with `clap`.

ghost use Rattle.std.specs.Prelude.{◌≡◌, [], true, false, map, Err, IfOk, IsSomeAnd, None};
ghost use Rattle.std.specs.List.{list_all};
ghost use Rattle.clap.specs.Words.{app_of, rule_of};
ghost use Rattle.command_words.specs.Items.{is_formed, known_items};
ghost use Rattle.command_words.specs.Simple.{HasItems, has_option, option_rule, simple_of, simple_with, values_of, word_id, word_rule};

use crate::command::CommandError;
use clap::{Arg, ArgAction, ArgMatches, Command};
use cluster_types::text::Text;
use std::alloc::{AllocError, Global};

/// The id of the positional words.
const WORD_ID: &str = "WORD";

/// An option, each time with one value.
fn with_value<'a>(alloc: Global, name: &'a str) -> Arg<'a>
    ensures rule { rule_of result ≡ option_rule name.now }
    ensures local { result.global ≡ false }
{
    Arg::new(alloc, name).long(name).action(ArgAction::Append)
}

/// Positional words, as many as come.
fn positional<'a>(alloc: Global) -> Arg<'a>
    ensures rule { rule_of result ≡ word_rule }
    ensures local { result.global ≡ false }
{
    Arg::new(alloc, WORD_ID).action(ArgAction::Append)
}

/// A command that takes no word for a call for help, and none for its own name.
fn bare<'a>(alloc: Global, name: &'a str) -> Command<'a>
    ensures { app_of result ≡ simple_with name.now [] }
{
    Command::new(alloc, name)
        .no_binary_name(true)
        .disable_help_flag(true)
}

/// The simple command of these options, and of positional words.
fn simple<'a>(alloc: Global, name: &'a str, options: &[&'a str]) -> Result<Command<'a>, AllocError>
    ensures { IfOk result (λ c. app_of c ≡ simple_of name.now (map (λ o. o.now) options.now)) }
{
    let mut command = bare(alloc, name);
    for long in options {
        command = command.arg(with_value(alloc, *long))?;
    }
    command.arg(positional(alloc))
}

/// Whether a word that begins with a dash begins with two, and doesn't end there.
#[tactic(auto, unfolding(crate::specs::Items::dash, crate::specs::Items::dashes))]
fn is_formed(word: &Text) -> bool
    ensures { result ≡ is_formed word.now }
{
    let octets = word.as_slice();
    !octets.starts_with(b"-") || (octets.starts_with(b"--") && octets.len() > 2)
}

/// Whether each word is a word of its own or may be an option. `clap` would read what lies behind `--` as positional
/// words, and `-` as a value.
pub fn are_formed(words: &[Text]) -> bool
    ensures { result ≡ list_all is_formed words.now }
{
    words.iter().all(|word| is_formed(word))
}

/// The words as `clap` takes them.
pub fn borrowed<'a>(alloc: Global, words: &'a [Text]) -> Result<Vec<&'a str>, AllocError>
    ensures { IfOk result (λ texts. map (λ t. t.now) texts.items ≡ words.now) }
{
    let mut texts = Vec::new(alloc);
    for word in words {
        texts.push(word.as_str())?;
    }
    Ok(texts)
}

/// The words behind a command, parted into positional words and the values of its options. `Usage` comes where a name
/// isn't among the options or has no value.
pub fn parted<'a>(
    alloc: Global,
    name: &'a str,
    options: &[&'a str],
    words: &'a [&'a str],
) -> Result<ArgMatches<'a>, CommandError>
    requires formed { list_all is_formed (map (λ w. w.now) words.now) ≡ true }
    requires apart { has_option (map (λ o. o.now) options.now) word_id ≡ false }
    ensures ok { IfOk result (λ m. IsSomeAnd (known_items (map (λ o. o.now) options.now) (map (λ w. w.now) words.now)) (HasItems (map (λ o. o.now) options.now) m)) }
    ensures usage { result ≡ Err CommandError.Usage → known_items (map (λ o. o.now) options.now) (map (λ w. w.now) words.now) ≡ None }
{
    let command = simple(alloc, name, options)?;
    Ok(command.try_get_matches_from(words)?)
}

/// The positional words, in order.
pub fn words<'a>(alloc: Global, matches: &ArgMatches<'a>) -> Result<Vec<&'a str>, AllocError>
    ensures { IfOk result (λ list. map (λ w. w.now) list.items ≡ values_of matches.now word_id) }
{
    match matches.get_strs(WORD_ID) {
        Some(words) => Vec::from_slice(alloc, words),
        None => Ok(Vec::new(alloc)),
    }
}
