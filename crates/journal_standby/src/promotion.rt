//! Opening a standby in place of its primary.

ghost use Rattle.std.specs.Prelude.{◌≡◌, ◌≤◌, ◌⊎◌, ℕ, length, reverse, false, IfOk, IfErr};
ghost use Rattle.cluster_types.specs.Causes.{Rose};
ghost use Rattle.cluster_types.specs.Limits.{last_moment};
ghost use Rattle.disk_model.specs.Crashes.{LeavesOnly};
ghost use Rattle.task_journal.specs.Journal.{StandsFor};
ghost use Rattle.task_journal.specs.Settled.{Unharmed, Spared, OnRefusal};
ghost use Rattle.cluster_store.specs.Openings.{IsOpened, HasOpen, Exits, WhyNot, opened};
ghost use Rattle.cluster_store.specs.Stores.{told, written};

use crate::standby::Standby;
use cluster_store::store::Store;
use cluster_types::config::Config;
use disk_model::disk::Disk;
use load_schemes::chooser::Chooser;
use std::alloc::Global;
use task_journal::fault::OpenFault;
use task_journal::opening::Refused;

impl<D: Disk> Standby<D> {
    /// Opens the standby's disk as a store, as `Store::open` does: what the primary's journal keeps up to the standby's list goes
    /// on with an Open and the decisions that are then due.
    pub fn promote(
        self,
        alloc: Global,
        config: Config,
        chooser: &Chooser,
        moment: u64,
    ) -> Result<Store<D>, Refused<D>>
        requires { moment ≤ last_moment }
        // The history goes on from the list that the disk stood for, which is the standby's where no call of it has failed.
        ensures history { IfOk result (λ s. IsOpened D.tells (D.content self.disk) config moment s.history) }
        ensures list { D.tells → self.failed ≡ false → IfOk result (λ s. s.history ≡ opened config moment (reverse self.list)) }
        ensures limits { IfOk result (λ s. s.limits ≡ record { entries = config.entries; bytes = config.bytes }) }
        ensures mark { IfOk result (λ s. s.mark ≡ length s.history) }
        ensures fresh { IfOk result (λ s. ((c : ℕ) → told s c ≡ 0) × (s.failed ≡ false) × (s.fulls ≡ 0)) }
        ensures stands { D.tells → IfOk result (λ s. StandsFor (D.content s.disk) (written s.history)) }
        ensures refused { D.tells → IfErr result (λ r. WhyNot (D.content self.disk) r.why) }
        // At a refusal a crash leaves what it might have left before, or always what stands for the same entries.
        ensures spared { D.tells → IfErr result (λ r. OnRefusal r.why (Spared (D.image self.disk) (D.content self.disk) (D.image r.disk))) }
        // So it does at any other error, or what stands for these with what is kept of the Open and its decisions.
        ensures exits { D.tells → IfErr result (λ r. Exits (D.image self.disk) (D.content self.disk) config moment (D.image r.disk)) }
        // A crash at any moment of the call leaves what it might have left before, or what stands for the same entries, or
        // for these with what is kept of the Open and its decisions.
        ensures any_moment { D.tells → IfOk result (λ s.
            LeavesOnly D.moment D.image_since self.disk s.disk (λ c. Unharmed (D.image self.disk) (D.content self.disk) c ⊎ HasOpen (D.content self.disk) config moment c)) }
        ensures any_moment_err { D.tells → IfErr result (λ r.
            LeavesOnly D.moment D.image_since self.disk r.disk (λ c. Unharmed (D.image self.disk) (D.content self.disk) c ⊎ HasOpen (D.content self.disk) config moment c)) }
        ensures later { IfOk result (λ s. D.faults self.disk ≤ D.faults s.disk) }
        ensures later_err { IfErr result (λ r. D.faults self.disk ≤ D.faults r.disk) }
        ensures cause { IfErr result (λ r. r.why ≡ OpenFault.DiskFault → Rose (D.faults self.disk) (D.faults r.disk)) }
    {
        let _list = self.list();
        Store::open(alloc, self.close(), config, chooser, moment)
    }
}
