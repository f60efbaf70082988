//! Names and their values.

ghost use Rattle.std.specs.Prelude.{◌≡◌, [], OnOk, OnErr};
ghost use Rattle.arith_eval.specs.Names.{value_in, assign};

use cluster_types::text::Text;
use std::alloc::{AllocError, Global};
use std::collections::BTreeMap;
use std::marker::Model;

/// The values of the names that were assigned.
#[derive(Debug, Drop)]
pub struct Namespace {
    values: BTreeMap<String, i64>,
    alloc: Global,
}

impl Model for Namespace {
    ghost use Rattle.std.specs.Prelude.{ℕ, ℤ, List, map, string_bytes};
    ghost use Rattle.arith_eval.specs.Names.{Assigned, assignments};

    ghost Value = { Assigned };

    ghost view = { λ n. assignments n.values.entries };
}

impl Namespace {
    /// No name has a value.
    pub fn new(alloc: Global) -> Namespace
        ensures { result ≡ [] }
    {
        Namespace {
            values: BTreeMap::new(alloc),
            alloc,
        }
    }

    /// The value of a name, where it has one.
    pub fn get(&self, name: &Text) -> Option<i64>
        ensures { result ≡ value_in self.now name.now }
    {
        self.values.get(name.as_str()).copied()
    }

    /// Gives a name a value.
    pub fn set(&mut self, name: &Text, value: i64) -> Result<(), AllocError>
        ensures ok { OnOk result (value_in self.new ≡ assign (value_in self.old) name.now value) }
        ensures err { OnErr result (self.new ≡ self.old) }
    {
        let key = String::from_str(self.alloc, name.as_str())?;
        self.values.insert(key, value)?;
        Ok(())
    }
}
