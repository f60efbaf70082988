//! The tape, record by record or as a whole.

ghost use Rattle.std.specs.Prelude.{◌≡◌, ◌<◌, ◌≤◌, ◌^◌, ◌∷◌, ◌++◌, [], IfOk, OnOk, OnErr, MatchOption};
ghost use Rattle.tape.specs.Spelling.{Fits, spelled, all_spelled};
ghost use Rattle.quick_commands.specs.Generated.{most_tasks, generated};

use crate::draws::next_draw;
use crate::key::work_key;
use crate::records::{opening, task_record};
use hmac_sign::Key;
use std::alloc::{AllocError, Global};
use std::collections::VecDeque;
use std::marker::Model;
use tape::record::TapeRecord;
use tape::writing::write_tape;

/// The records of a tape one by one, each made when it is asked for. Contracts see those that are still to come.
#[derive(Drop)]
pub struct Generator {
    alloc: Global,
    key: Key,
    /// What is still to come before the tasks.
    opening: VecDeque<TapeRecord>,
    /// What the numbers are drawn from. It is kept for the contracts alone.
    seed: u32,
    /// How many tasks the tape has.
    tasks: u32,
    /// How many of them were given.
    given: u32,
    /// The number that was drawn last.
    drawn: u32,
}

impl Model for Generator {
    ghost use Rattle.std.specs.Prelude.{◌≡◌, ◌≤◌, ◌+◌, ◌-◌, ◌++◌, List};
    ghost use Rattle.tape.specs.declared.record.TapeRecord.{TapeRecord};
    ghost use Rattle.quick_commands.specs.Draws.{draw};
    ghost use Rattle.quick_commands.specs.Generated.{work_key, most_tasks, tasks_from};

    ghost Value = { List TapeRecord };

    ghost view = { λ g. g.opening.items ++ tasks_from g.seed (g.given + 1) (g.tasks - g.given) };

    ghost invariant = { λ g. (g.key ≡ work_key) × (g.given ≤ g.tasks) × (g.tasks ≤ most_tasks) × (g.drawn ≡ draw g.seed g.given) };
}

impl Generator {
    /// The tape of a seed and so many tasks, of which nothing was given yet.
    pub fn new(alloc: Global, seed: u32, tasks: u32) -> Result<Generator, AllocError>
        requires seed { seed < 2 ^ 31 }
        requires tasks { tasks ≤ most_tasks }
        ensures { IfOk result (λ generator. generator ≡ generated seed tasks) }
    {
        let key = work_key(alloc)?;
        let opening = opening(alloc, &key)?;
        Ok(Generator {
            alloc,
            key,
            opening,
            seed,
            tasks,
            given: 0,
            drawn: seed,
        })
    }

    /// The next record, or none where all were given. Want of memory changes nothing.
    #[tactic(auto, using(crate::proofs::ToCome::draw_more, crate::proofs::ToCome::no_tasks, crate::proofs::ToCome::next_task))]
    pub fn next(&mut self) -> Result<Option<TapeRecord>, AllocError>
        ensures taken { IfOk result (λ r. MatchOption r ((self.old ≡ []) × (self.new ≡ [])) (λ item. self.old ≡ item ∷ self.new)) }
        ensures err { OnErr result (self.new ≡ self.old) }
    {
        if let Some(record) = self.opening.pop_front() {
            return Ok(Some(record));
        }
        if self.given == self.tasks {
            return Ok(None);
        }
        let number = self.given + 1;
        let drawn = next_draw(self.drawn);
        let record = task_record(self.alloc, &self.key, number, drawn)?;
        self.given = number;
        self.drawn = drawn;
        Ok(Some(record))
    }
}

/// Appends a record that isn't needed any more.
fn put(octets: &mut Vec<u8>, item: TapeRecord) -> Result<(), AllocError>
    requires { Fits item }
    ensures { OnOk result (octets.new.items ≡ octets.old.items ++ spelled item) }
{
    write_tape(octets, &item)
}

/// The octets of the tape of a seed and so many tasks.
#[tactic(auto, using(crate::proofs::Fitting::generated_fits, crate::proofs::Writing::first_fits, crate::proofs::Writing::rest_fits, crate::proofs::Writing::spelled_more))]
pub fn generate(alloc: Global, seed: u32, tasks: u32) -> Result<Vec<u8>, AllocError>
    requires seed { seed < 2 ^ 31 }
    requires tasks { tasks ≤ most_tasks }
    ensures { IfOk result (λ octets. octets.items ≡ all_spelled (generated seed tasks)) }
{
    let mut generator = Generator::new(alloc, seed, tasks)?;
    let mut octets = Vec::new(alloc);
    while let Some(record) = generator.next()? {
        put(&mut octets, record)?;
    }
    Ok(octets)
}
