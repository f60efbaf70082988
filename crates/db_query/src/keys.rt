//! The keys that an object may have.

ghost use Rattle.std.specs.Prelude.{◌≡◌};
ghost use Rattle.json.specs.Value.{value_view, members_view as json_members};
ghost use Rattle.jupyter_header.specs.Borrowed.{view};
ghost use Rattle.cluster_defs.specs.FilterWords.{is_operator, is_word};
ghost use Rattle.cluster_defs.specs.FilterReadings.{has_only};
ghost use Rattle.db_query.specs.Members.{each_name, only_names};

use crate::fields::field_of;
use cluster_defs::filter::Vocabulary;
use json::Value;

/// Whether a text is an operator.
#[tactic(auto, unfolding(cluster_defs::specs::FilterWords::is_operator))]
fn is_operator(name: &str) -> bool
    ensures { result ≡ is_operator name.now }
{
    name == "$in" || name == "$ne" || name == "$lt" || name == "$gt"
}

/// Whether a text is one of some words.
fn is_word(words: Vocabulary, name: &str) -> bool
    ensures { result ≡ is_word words name.now }
{
    match words {
        Vocabulary::Fields => field_of(name).is_some(),
        Vocabulary::Operators => is_operator(name),
    }
}

/// Whether the name of each member is one of some words.
fn each_name(words: Vocabulary, members: &Vec<(&str, Value<'_>)>) -> bool
    ensures { result ≡ each_name words (json_members members.now.items) }
{
    for member in members {
        if !is_word(words, member.0) {
            return false;
        }
    }
    true
}

/// Whether a value is an object in which the name of each member is one of some words.
fn only_names(words: Vocabulary, value: &Value<'_>) -> bool
    ensures { result ≡ only_names words (value_view value.now) }
{
    match value {
        Value::Object(members) => each_name(words, members),
        _ => false,
    }
}

/// Whether a value is an object each of whose keys is one of some words.
#[tactic(auto, using(crate::proofs::Puts::named_only))]
pub fn has_only(words: Vocabulary, value: &Value<'_>) -> bool
    ensures { result ≡ has_only words (view value.now) }
{
    only_names(words, value)
}
