//! Opening a store over a disk.

ghost use Rattle.std.specs.Prelude.{◌≡◌, ◌≤◌, ◌⊎◌, ℕ, length, false, All, IfOk, IfErr, IsErrOf};
ghost use Rattle.cluster_types.specs.Causes.{Rose};
ghost use Rattle.cluster_types.specs.Limits.{last_moment};
ghost use Rattle.disk_model.specs.Crashes.{LeavesOnly};
ghost use Rattle.record_codec.specs.Spelling.{HasRecord};
ghost use Rattle.task_journal.specs.Journal.{StandsFor};
ghost use Rattle.task_journal.specs.Reads.{OnlyReads};
ghost use Rattle.task_journal.specs.Settled.{Unharmed, Spared, OnRefusal};
ghost use Rattle.cluster_store.specs.Openings.{IsFit, IsOpened, HasOpen, Exits, WhyNot};
ghost use Rattle.cluster_store.specs.Stores.{told, written};

use crate::remaking::core_of;
use crate::store::Store;
use cluster_core::size::HistorySize;
use cluster_types::config::Config;
use cluster_types::entry::Entries;
use disk_model::disk::Disk;
use load_schemes::chooser::Chooser;
use std::alloc::Global;
use task_journal::fault::OpenFault;
use task_journal::journal::Journal;
use task_journal::opening::Refused;
use task_journal::reading::read_journal;

impl<D: Disk> Store<D> {
    /// Opens the database of a disk: it opens its journal, makes each step of the journal's list again, and goes on with an
    /// Open and the decisions that are then due, which it writes. The limits of `config` count from that Open. It costs one
    /// pass over the disk and one step for each entry.
    pub fn open(
        alloc: Global,
        disk: D,
        config: Config,
        chooser: &Chooser,
        moment: u64,
    ) -> Result<Store<D>, Refused<D>>
        requires { moment ≤ last_moment }
        // The history goes on from the list that the disk stood for.
        ensures history { IfOk result (λ s. IsOpened D.tells (D.content disk) config moment s.history) }
        ensures limits { IfOk result (λ s. s.limits ≡ record { entries = config.entries; bytes = config.bytes }) }
        ensures mark { IfOk result (λ s. s.mark ≡ length s.history) }
        ensures fresh { IfOk result (λ s. ((c : ℕ) → told s c ≡ 0) × (s.failed ≡ false) × (s.fulls ≡ 0)) }
        ensures stands { D.tells → IfOk result (λ s. StandsFor (D.content s.disk) (written s.history)) }
        ensures refused { D.tells → IfErr result (λ r. WhyNot (D.content disk) r.why) }
        // At a refusal a crash leaves what it might have left before, or always what stands for the same entries.
        ensures spared { D.tells → IfErr result (λ r. OnRefusal r.why (Spared (D.image disk) (D.content disk) (D.image r.disk))) }
        // So it does at any other error, or what stands for these with what is kept of the Open and its decisions.
        ensures exits { D.tells → IfErr result (λ r. Exits (D.image disk) (D.content disk) config moment (D.image r.disk)) }
        // A crash at any moment of the call leaves what it might have left before, or what stands for the same entries, or
        // for these with what is kept of the Open and its decisions.
        ensures any_moment { D.tells → IfOk result (λ s.
            LeavesOnly D.moment D.image_since disk s.disk (λ c. Unharmed (D.image disk) (D.content disk) c ⊎ HasOpen (D.content disk) config moment c)) }
        ensures any_moment_err { D.tells → IfErr result (λ r.
            LeavesOnly D.moment D.image_since disk r.disk (λ c. Unharmed (D.image disk) (D.content disk) c ⊎ HasOpen (D.content disk) config moment c)) }
        ensures later { IfOk result (λ s. D.faults disk ≤ D.faults s.disk) }
        ensures later_err { IfErr result (λ r. D.faults disk ≤ D.faults r.disk) }
        ensures cause { IfErr result (λ r. r.why ≡ OpenFault.DiskFault → Rose (D.faults disk) (D.faults r.disk)) }
    {
        let (journal, entries, places) = match Journal::open(alloc, disk) {
            Ok(opened) => opened,
            Err(refused) => return Err(refused),
        };
        let mut core = match core_of(alloc, chooser, &entries, &places) {
            Ok(core) => core,
            Err(why) => {
                return Err(Refused {
                    disk: journal.close(),
                    why,
                });
            }
        };
        core.set_limits(HistorySize {
            entries: config.entries,
            bytes: config.bytes,
        });
        Store::begin(journal, core, chooser, config, moment)
    }
}

/// The list of a database, read as `Store::open` reads it, with the same refusals. Nothing is written.
pub fn read_list<D: Disk>(
    alloc: Global,
    disk: &mut D,
    chooser: &Chooser,
) -> Result<Entries, OpenFault>
    ensures list { D.tells → IfOk result (λ list. StandsFor (D.content disk.old) list) }
    ensures fit { IfOk result IsFit }
    ensures has { IfOk result (λ list. All HasRecord list) }
    ensures refused { D.tells → IfErr result (WhyNot (D.content disk.old)) }
    ensures reads { OnlyReads D.content D.image D.moment D.image_since D.faults disk.old disk.new }
    ensures cause { IsErrOf result OpenFault.DiskFault → Rose (D.faults disk.old) (D.faults disk.new) }
{
    let (entries, places) = read_journal(alloc, disk)?;
    let _core = core_of(alloc, chooser, &entries, &places)?;
    Ok(entries)
}
