//! Lists of entries that get longer.

ghost use Rattle.std.specs.Prelude.{◌≡◌, ◌++◌, ◌≤◌, length, take, IfOk, OnOk, OnErr};

use cluster_types::entry::{Entries, Entry};
use std::alloc::{AllocError, Global};

/// Puts copies of entries behind a list, or of the first of them.
fn push_all(list: &mut Entries, more: &[Entry]) -> Result<(), AllocError>
    ensures ok { OnOk result (list.new ≡ list.old ++ more.now) }
    ensures front { take (length list.old) list.new ≡ list.old }
{
    for entry in more {
        list.push(entry.clone()?)?;
    }
    Ok(())
}

/// A copy of entries.
pub fn copied(alloc: Global, entries: &[Entry]) -> Result<Entries, AllocError>
    ensures { IfOk result (λ list. list ≡ entries.now) }
{
    let mut list = Entries::new(alloc);
    push_all(&mut list, entries)?;
    Ok(list)
}

/// Takes all entries out but the first, so many. It takes no memory.
pub fn shorten(list: &mut Entries, count: usize)
    ensures { list.new ≡ take count list.old }
{
    let alloc = list.allocator();
    let mut items = std::mem::replace(list, Entries::new(alloc)).into_vec();
    items.truncate(count);
    *list = Entries::from_vec(items);
}

/// Puts copies of entries behind a list, or leaves it as it was.
pub fn lengthen(list: &mut Entries, more: &[Entry]) -> Result<(), AllocError>
    ensures ok { OnOk result (list.new ≡ list.old ++ more.now) }
    ensures err { OnErr result (list.new ≡ list.old) }
{
    let held = list.len();
    match push_all(list, more) {
        Ok(()) => Ok(()),
        Err(error) => {
            shorten(list, held);
            Err(error)
        }
    }
}
