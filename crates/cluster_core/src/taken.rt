//! Entries that are answered and taken.

ghost use Rattle.std.specs.Prelude.{◌≡◌, ◌≤◌, IfOk, OnOk};
ghost use Rattle.cluster_types.specs.Limits.{last_moment};
ghost use Rattle.cluster_defs.specs.Outs.{outs_as};
ghost use Rattle.cluster_defs.specs.Scheduling.{is_kept_as};
ghost use Rattle.cluster_state.specs.Plain.{facts_in, plain_after, InTime};
ghost use Rattle.cluster_state.specs.Stands.{plain};
ghost use Rattle.entry_outs.specs.Asked.{type_on, told_type};
ghost use Rattle.entry_outs.specs.Reached.{IsNext};

use crate::meaning::Meaning;
use cluster_state::state::State;
use cluster_types::entry::Entry;
use cluster_types::out::Out;
use entry_outs::entries::outs;
use entry_outs::rulings::ruling;
use std::alloc::AllocError;

/// What an entry sent, and whether a crash leaves it.
#[derive(Drop)]
pub struct TakenEntry {
    pub outs: Vec<Out>,
    pub is_kept: bool,
}

/// Takes an entry that may stand next, once what it comes to was worked out and what it sends. `place` is its place after the
/// last Open.
pub fn take_entry(
    place: u64,
    state: &mut State,
    entry: &Entry,
    meaning: &Meaning,
) -> Result<TakenEntry, AllocError>
    requires next { IsNext (plain state.old) entry.now }
    requires kind { meaning.now.msg_type ≡ told_type meaning.now.event (type_on entry.now) }
    requires time { InTime entry.now }
    requires now { state.old.moment ≤ last_moment }
    ensures outs { IfOk result (λ t. t.outs.items ≡ outs_as place (facts_in (plain state.old)) entry.now meaning.now.event) }
    ensures kept { IfOk result (λ t. t.is_kept ≡ is_kept_as (facts_in (plain state.old)) entry.now meaning.now.event) }
    ensures after { OnOk result (plain state.new ≡ plain_after (facts_in (plain state.old)) entry.now meaning.now.event (plain state.old)) }
{
    let Meaning { event, msg_type } = meaning;
    let ruling = ruling(state, entry, event)?;
    let outs = outs(place, state, entry, event, msg_type, &ruling)?.into_vec();
    let is_kept = state.take(entry, event, ruling)?;
    Ok(TakenEntry { outs, is_kept })
}
