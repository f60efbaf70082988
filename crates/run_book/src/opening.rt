//! Opening the database of a book.

ghost use Rattle.std.specs.Prelude.{◌≡◌, ◌≤◌, IfOk, IfErr};
ghost use Rattle.cluster_types.specs.Causes.{Rose};
ghost use Rattle.cluster_store.specs.Openings.{IsOpened, WhyNot};
ghost use Rattle.controller_desk.specs.Ups.{IsSet, ups};
ghost use Rattle.run_book.specs.Kept.{AreSaid};
ghost use Rattle.run_book.specs.Ready.{book_config};

use cluster_store::store::Store;
use cluster_types::config::{Config, Scheme};
use cluster_types::limits::{MOST_ENTRIES, MOST_RECORD_OCTETS};
use disk_model::disk::Disk;
use load_schemes::chooser::Chooser;
use std::alloc::Global;
use task_journal::fault::OpenFault;
use task_journal::opening::Refused;

/// One task for each engine at a time, by the least load, and the greatest limits.
fn book_config() -> Config
    ensures { result ≡ book_config }
{
    Config {
        scheme: Scheme::LeastLoad,
        hwm: 1,
        misses: 10,
        entries: u64::from(MOST_ENTRIES),
        bytes: u64::from(MOST_RECORD_OCTETS),
    }
}

/// Opens the database of a disk for a book, at the moment 0: no connection came up, and no engine has said anything.
pub fn open_store<D: Disk>(
    alloc: Global,
    disk: D,
    chooser: &Chooser,
) -> Result<Store<D>, Refused<D>>
    ensures opened { IfOk result (λ s. IsOpened D.tells (D.content disk) book_config 0 s.history) }
    ensures set { IfOk result IsSet }
    ensures fresh { IfOk result (λ s. (ups s.history ≡ 0) × (s.fulls ≡ 0)) }
    ensures said { IfOk result (λ s. ∥ AreSaid s.history ∥₁) }
    ensures refused { D.tells → IfErr result (λ r. WhyNot (D.content disk) r.why) }
    ensures later { IfOk result (λ s. D.faults disk ≤ D.faults s.disk) }
    ensures cause { IfErr result (λ r. r.why ≡ OpenFault.DiskFault → Rose (D.faults disk) (D.faults r.disk)) }
{
    match Store::open(alloc, disk, book_config(), chooser, 0) {
        Ok(store) => Ok(store),
        Err(refused) => Err(refused),
    }
}
