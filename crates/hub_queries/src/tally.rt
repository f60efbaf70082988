//! Ids that are counted and, where that is asked, listed.

ghost use Rattle.std.specs.Prelude.{◌≡◌, ◌+◌, ◌<◌, ◌^◌, ◌++◌, ◌∷◌, [], Bool, false, List, length, map, if◌then◌else◌, IfOk, OnOk, string_bytes};
ghost use Rattle.json.specs.Print.{quoted};
ghost use Rattle.cluster_defs.specs.Texts.{counted};
ghost use Rattle.cluster_defs.specs.Words.{Id};
ghost use Rattle.jupyter_header.specs.Comma.{comma};
ghost use Rattle.hub_queries.specs.Tallies.{tallied};

use cluster_types::text::Text;
use jupyter_header::contents::push_comma;
use jupyter_header::write::quoted;
use std::alloc::{AllocError, Global};
use std::marker::Model;

/// A number of ids with, where that is asked, their texts as JSON writes them, parted by commas.
#[derive(Debug, Drop)]
pub struct Tally {
    verbose: bool,
    count: usize,
    listed: String,
}

impl Model for Tally {
    ghost use Rattle.std.specs.Prelude.{string_bytes};
    ghost use Rattle.hub_queries.specs.Tallies.{Tallied};

    ghost Value = { Tallied };

    ghost view = { λ t. record { verbose = t.verbose; count = t.count; listed = string_bytes t.listed } };
}

/// Appends the id at a place of a list.
fn push_id(text: &mut String, alloc: Global, place: usize, id: &Text) -> Result<(), AllocError>
    ensures { OnOk result (string_bytes text.new ≡ string_bytes text.old ++ (comma place ++ quoted id.now)) }
{
    push_comma(text, place)?;
    let quoted = quoted(alloc, id.as_str())?;
    text.push_str(quoted.as_str())
}

impl Tally {
    /// The tally of no ids.
    pub fn new(alloc: Global, verbose: bool) -> Tally
        ensures { result ≡ tallied verbose [] }
    {
        Tally {
            verbose,
            count: 0,
            listed: String::new(alloc),
        }
    }

    /// The tally of so many ids, which are counted alone.
    pub fn counted(alloc: Global, count: u32) -> Tally
        ensures { (ids : List Id) → count ≡ length ids → result ≡ tallied false ids }
    {
        Tally {
            verbose: false,
            count: count as usize,
            listed: String::new(alloc),
        }
    }

    /// Adds an id.
    pub fn add(&mut self, alloc: Global, id: &Text) -> Result<(), AllocError>
        ensures { (verbose : Bool) (ids : List Id) → length ids + 1 < 2 ^ 64 → self.old ≡ tallied verbose ids → OnOk result (self.new ≡ tallied verbose (ids ++ id.now ∷ [])) }
    {
        if self.verbose {
            push_id(&mut self.listed, alloc, self.count, id)?;
        }
        self.count = self.count.saturating_add(1);
        Ok(())
    }

    /// Adds an id where it is wanted.
    pub fn add_if(&mut self, alloc: Global, wanted: bool, id: &Text) -> Result<(), AllocError>
        ensures { (verbose : Bool) (ids : List Id) → length ids + 1 < 2 ^ 64 → self.old ≡ tallied verbose ids → OnOk result (self.new ≡ tallied verbose (ids ++ (if wanted then id.now ∷ [] else []))) }
    {
        if wanted {
            self.add(alloc, id)?;
        }
        Ok(())
    }

    /// Appends the list of the ids or, where that wasn't asked, their number.
    pub fn push_to(&self, text: &mut String, alloc: Global) -> Result<(), AllocError>
        ensures { (verbose : Bool) (ids : List Id) → self.now ≡ tallied verbose ids → OnOk result (string_bytes text.new ≡ string_bytes text.old ++ counted verbose ids) }
    {
        if self.verbose {
            text.push_str("[")?;
            text.push_str(self.listed.as_str())?;
            text.push_str("]")?;
        } else {
            let number = self.count.to_string(alloc)?;
            text.push_str(number.as_str())?;
        }
        Ok(())
    }
}
