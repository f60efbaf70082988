//! Laws of clients. The functions do nothing: their contracts are what is proved.

ghost use Rattle.std.specs.Prelude.{◌≡◌, ◌≤◌, ◌<◌, ◌^◌, ℕ, Bool, List, Ok, Some, true};
ghost use Rattle.std.specs.Str.{is_utf8};
ghost use Rattle.cluster_types.specs.declared.message.Message.{Message};
ghost use Rattle.cluster_defs.specs.declared.content.SubmitMeta.{SubmitMeta};
ghost use Rattle.cluster_defs.specs.Submit.{read_submit};
ghost use Rattle.client_core.specs.declared.answered.Answered.{Answered};
ghost use Rattle.client_core.specs.Clients.{Used, is_watched, noted, after_outcome};
ghost use Rattle.client_core.specs.Limits.{is_within_limits};
ghost use Rattle.client_core.specs.Messages.{submit_metadata, meta_once};
ghost use Rattle.client_core.specs.Noting.{note_of};
ghost use Rattle.client_core.specs.Numbers.{numbered_id};
ghost use Rattle.client_core.specs.Taking.{times_settled};

/// Over any list of messages that are taken one after another, each id is settled at most once.
pub fn settled_once()
    ensures { (used : Used) (messages : List Message) (id : List ℕ) → times_settled id used messages ≤ 1 }
{}

/// Metadata within the limits that is UTF-8 reads as what was meant, with each id of a dependency once.
pub fn metadata_reads_back()
    ensures { (meta : SubmitMeta) → is_within_limits meta ≡ true → is_utf8 (submit_metadata meta) ≡ true → read_submit (submit_metadata meta) ≡ Ok (meta_once meta) }
{}

/// The outcome of a task that is watched is noted.
pub fn noted_where_watched()
    ensures { (used : Used) (id : List ℕ) (answer : Answered) (ok : Bool) → is_watched used id ≡ true → noted (after_outcome used id answer ok) id ≡ Some (note_of answer ok) }
{}

/// Two numbers below 2^32 have two ids.
pub fn numbered_apart()
    ensures { (m n : ℕ) → m < 2 ^ 32 → n < 2 ^ 32 → numbered_id m ≡ numbered_id n → m ≡ n }
{}
