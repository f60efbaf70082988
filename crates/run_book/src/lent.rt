//! The calls over a store that is lent to them: each takes one step at the moment 0, or none.

ghost use Rattle.std.specs.Prelude.{◌≡◌, ◌<◌, OnOk, OnErr, length};
ghost use Rattle.record_codec.specs.Spelling.{IsShort};
ghost use Rattle.controller_desk.specs.Calls.{HasActed, HasOpened};
ghost use Rattle.controller_desk.specs.Ups.{IsSet, ups};
ghost use Rattle.run_book.specs.Kept.{MayCome, AreSaid};

use cluster_store::store::Store;
use cluster_types::config::Channel;
use controller_desk::acted::Acted;
use controller_desk::fault::ActError;
use controller_desk::lent;
use controller_desk::reading::Reading;
use controller_desk::stamp::Stamp;
use disk_model::disk::Disk;
use load_schemes::chooser::Chooser;

/// Takes a message on a connection where it may come.
pub fn act_on<D: Disk>(
    store: &mut Store<D>,
    chooser: &Chooser,
    conn: u32,
    reading: Reading,
) -> Result<Acted, ActError>
    requires short { IsShort reading.message }
    requires set { IsSet store.old }
    requires said { ∥ AreSaid store.old.history ∥₁ }
    requires may { MayCome store.old.history conn reading.message }
    ensures acted { HasActed store.old 0 0 conn reading.message result store.new }
    ensures set { IsSet store.new }
    ensures ups { ups store.new.history ≡ ups store.old.history }
    ensures said { ∥ AreSaid store.new.history ∥₁ }
{
    let stamp = Stamp { moment: 0, word: 0 };
    lent::act_on(store, chooser, stamp, conn, reading)
}

/// Brings up the connection with the number behind the last one, and counts it.
pub fn open_on<D: Disk>(
    store: &mut Store<D>,
    chooser: &Chooser,
    last: &mut u32,
    channel: Channel,
    identity: &[u8],
) -> Result<u32, ActError>
    requires identity { length identity.now < 256 }
    requires counted { last.old ≡ ups store.old.history }
    requires set { IsSet store.old }
    requires said { ∥ AreSaid store.old.history ∥₁ }
    ensures opened { HasOpened store.old 0 0 channel identity.now result store.new }
    ensures counted { last.new ≡ ups store.new.history }
    ensures set { IsSet store.new }
    ensures said { ∥ AreSaid store.new.history ∥₁ }
{
    let stamp = Stamp { moment: 0, word: 0 };
    lent::open_on(store, chooser, stamp, last, channel, identity)
}
