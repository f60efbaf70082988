//! Which ids are let go.

ghost use Rattle.std.specs.Prelude.{◌≡◌, ◌||◌, ◌&&◌, ◌++◌, ◌∷◌, [], if◌then◌else◌, not, reverse, IfOk, OnOk, bytes_eq};
ghost use Rattle.std.specs.List.{list_any};
ghost use Rattle.cluster_defs.specs.Words.{Id};
ghost use Rattle.cluster_defs.specs.Thin.{narrowed};
ghost use Rattle.database_text.specs.Going.{purged_in, holds, purged_by, gone_by};
ghost use Rattle.database_text.specs.Thinning.{copies_in, gone_through};

use crate::notes::{Copied, Note};
use cluster_state::state::State;
use cluster_types::text::Text;
use std::alloc::{AllocError, Global};
use std::collections::BTreeMap;

/// Which ids are let go: those that are purged, without the held ones.
#[derive(Drop)]
pub struct Going<'a> {
    /// What is known after the history.
    state: &'a State,
    /// The ids that stay though they may be purged, since a copy stays that was made of them.
    held: BTreeMap<&'a str, ()>,
}

/// Holds further ids.
fn hold_each<'a>(held: &mut BTreeMap<&'a str, ()>, ids: &[&'a Text]) -> Result<(), AllocError>
    ensures { OnOk result ((q : Id) → holds held.new q ≡ (holds held.old q || list_any (λ id. bytes_eq id.now q) ids.now)) }
{
    for id in ids {
        held.insert(id.as_str(), ())?;
    }
    Ok(())
}

/// Puts an id at the end of a list, where it is wanted there.
fn push_if<'a>(ids: &mut Vec<&'a Text>, wanted: bool, id: &'a Text) -> Result<(), AllocError>
    ensures { OnOk result (ids.new.items ≡ ids.old.items ++ (if wanted then id.entry ∷ [] else [])) }
{
    if wanted {
        ids.push(id)?;
    }
    Ok(())
}

impl<'a> Going<'a> {
    /// Before any copy is looked at, all that is purged.
    fn new(alloc: Global, state: &'a State) -> Going<'a>
        ensures purged { purged_by result ≡ purged_in state.now }
        ensures gone { gone_by result ≡ purged_in state.now }
    {
        Going {
            state,
            held: BTreeMap::new(alloc),
        }
    }

    /// Whether an id is purged.
    pub fn is_purged(&self, id: &Text) -> bool
        ensures { result ≡ purged_by self.now id.now }
    {
        match self.state.tasks.find(id) {
            Some(task) => task.row().purged,
            None => false,
        }
    }

    /// Whether an id is held.
    fn is_held(&self, id: &Text) -> bool
        ensures { result ≡ holds self.now.held id.now }
    {
        self.held.contains_key(id.as_str())
    }

    /// Whether an id is let go.
    pub fn lets_go(&self, id: &Text) -> bool
        ensures { result ≡ gone_by self.now id.now }
    {
        self.is_purged(id) && !self.is_held(id)
    }

    /// The old ids of those copies that stay.
    fn olds_of<'b>(&self, alloc: Global, copies: &'b [Copied]) -> Result<Vec<&'b Text>, AllocError>
        ensures { IfOk result (λ olds. (q : Id) → list_any (λ id. bytes_eq id.now q) olds.items ≡ list_any (λ c. bytes_eq c.old q && not (gone_by self.now c.new)) copies.now) }
    {
        let mut olds = Vec::new(alloc);
        for copy in copies {
            push_if(&mut olds, !self.lets_go(copy.new_id()), copy.old())?;
        }
        Ok(olds)
    }

    /// Holds the old ids of those copies that stay.
    fn narrow(&mut self, alloc: Global, copies: &'a [Copied]) -> Result<(), AllocError>
        ensures purged { OnOk result (purged_by self.new ≡ purged_by self.old) }
        ensures gone { OnOk result (gone_by self.new ≡ narrowed (gone_by self.old) copies.now) }
    {
        let olds = self.olds_of(alloc, copies)?;
        hold_each(&mut self.held, olds.as_slice())?;
        Ok(())
    }

    /// Holds the old ids of those copies that stay of the ones that an entry made.
    fn look_at(&mut self, alloc: Global, note: &'a Note) -> Result<(), AllocError>
        ensures purged { OnOk result (purged_by self.new ≡ purged_by self.old) }
        ensures gone { OnOk result (gone_by self.new ≡ narrowed (gone_by self.old) (copies_in note.now)) }
    {
        if let Note::Makes(copies) = note {
            self.narrow(alloc, copies.as_slice())?;
        }
        Ok(())
    }
}

/// Which ids are let go after entries that do this, of a history after which this is known.
pub fn going_after<'a>(
    alloc: Global,
    state: &'a State,
    notes: &'a [Note],
) -> Result<Going<'a>, AllocError>
    ensures purged { IfOk result (λ going. purged_by going ≡ purged_in state.now) }
    ensures gone { IfOk result (λ going. gone_by going ≡ gone_through (purged_in state.now) (reverse notes.now)) }
{
    let mut going = Going::new(alloc, state);
    for note in notes.iter().rev() {
        going.look_at(alloc, note)?;
    }
    Ok(going)
}
