//! Calls of a disk that change nothing.

ghost use Rattle.std.specs.Prelude.{◌≡◌, ◌≤◌, ◌+◌, length, take, drop, IfOk, OnOk, IsErrOf, IfErr};
ghost use Rattle.cluster_types.specs.Causes.{Rose};
ghost use Rattle.task_journal.specs.Journal.{IsOfDisk};
ghost use Rattle.task_journal.specs.Reads.{OnlyReads};

use crate::fault::OpenFault;
use disk_model::disk::Disk;

/// The number of octets.
#[tactic(auto, using(crate::proofs::Calls::only_reads))]
pub fn size_of<D: Disk>(disk: &mut D) -> Result<u64, OpenFault>
    ensures value { D.tells → IfOk result (λ n. n ≡ length (D.content disk.old)) }
    ensures reads { OnlyReads D.content D.image D.moment D.image_since D.faults disk.old disk.new }
    ensures fault { IfErr result IsOfDisk }
    ensures cause { IsErrOf result OpenFault.DiskFault → Rose (D.faults disk.old) (D.faults disk.new) }
{
    let size = disk.size()?;
    Ok(size)
}

/// The octets from a place on.
#[tactic(auto, using(crate::proofs::Calls::only_reads))]
pub fn read_into<D: Disk>(disk: &mut D, at: u64, into: &mut [u8]) -> Result<(), OpenFault>
    requires { D.tells → at + length into.old ≤ length (D.content disk.old) }
    ensures value { D.tells → OnOk result (into.new ≡ take (length into.old) (drop at (D.content disk.old))) }
    ensures reads { OnlyReads D.content D.image D.moment D.image_since D.faults disk.old disk.new }
    ensures fault { IfErr result IsOfDisk }
    ensures cause { IsErrOf result OpenFault.DiskFault → Rose (D.faults disk.old) (D.faults disk.new) }
{
    disk.read(at, into)?;
    Ok(())
}
