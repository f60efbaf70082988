//! The head of a journal.

ghost use Rattle.std.specs.Prelude.{◌≡◌, ◌≤◌, length, IsErrOf};
ghost use Rattle.cluster_types.specs.Causes.{Rose};
ghost use Rattle.task_journal.specs.Reads.{OnlyReads};
ghost use Rattle.task_journal.specs.Window.{HasHead};

use crate::disk_calls::read_into;
use crate::fault::OpenFault;
use crate::version::Version;
use disk_model::disk::Disk;
use edges::difference::difference_of;

/// The version of the journal that a disk begins with, by its version octet. All other octets of its head are those of each
/// version.
pub fn read_head<D: Disk>(disk: &mut D) -> Result<Version, OpenFault>
    requires { D.tells → 31 ≤ length (D.content disk.old) }
    ensures value { D.tells → HasHead (D.content disk.old) result }
    ensures reads { OnlyReads D.content D.image D.moment D.image_since D.faults disk.old disk.new }
    ensures cause { IsErrOf result OpenFault.DiskFault → Rose (D.faults disk.old) (D.faults disk.new) }
{
    let mut octets = [0; 31];
    read_into(disk, 0, &mut octets)?;
    let version = Version::by(octets[12]);
    octets[12] = 2;
    let head =
        b"IPCJRNL1\x00\x00\x00\x01\x02\x00\x00\x00\x00\x00\x00\x00\x00\x00\x00\x00\x00\x00\x00\x00\x00\x00\x00";
    match difference_of(0, head, &octets) {
        Some(place) => Err(OpenFault::NotAJournal(place)),
        None => Ok(version),
    }
}
