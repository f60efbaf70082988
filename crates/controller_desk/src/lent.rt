//! The calls over a store that is lent to them: each takes one step, or none.

ghost use Rattle.std.specs.Prelude.{◌≡◌, ◌<◌, ⊤, ◌∷◌, suc, true, false, Ok, Err, Some, IfOk, OnOk, OnErr, length, filter};
ghost use Rattle.cluster_types.specs.declared.entry.Entry.{Entry};
ghost use Rattle.cluster_defs.specs.Facts.{event_in};
ghost use Rattle.cluster_defs.specs.Scheduling.{may_take};
ghost use Rattle.cluster_defs.specs.Histories.{facts, is_stopping};
ghost use Rattle.cluster_defs.specs.Lives.{is_open};
ghost use Rattle.entry_outs.specs.Asked.{type_on, told_type};
ghost use Rattle.record_codec.specs.Spelling.{IsWithinLimits, IsShort};
ghost use Rattle.cluster_store.specs.Stores.{StoreView};
ghost use Rattle.controller_desk.specs.Calls.{HasTried, HasActed, HasOpened, HasClosed, HasTaken, HasFlushed, HasTrimmed, has_news};
ghost use Rattle.controller_desk.specs.Ups.{IsSet, HasNextNumber, ups, ups_after};
ghost use Rattle.link_messages.specs.Identity.{identity_or_number, up_of};

use crate::acted::Acted;
use crate::fault::ActError;
use crate::reading::Reading;
use crate::stamp::Stamp;
use cluster_core::meaning::Meaning;
use cluster_intake::understood::Understood;
use cluster_store::fault::StepError;
use cluster_store::store::Store;
use cluster_store::taken::Taken;
use cluster_types::config::Channel;
use cluster_types::entry::Input;
use cluster_types::octets::Octets;
use cluster_types::shared_message::SharedMessage;
use disk_model::disk::Disk;
use link_messages::identity::identity_or_number;
use load_schemes::chooser::Chooser;
use std::alloc::{AllocError, Global};
use task_journal::fault::AppendFault;

/// The most connections that may be live.
const MOST_CONNS: usize = 1024;

/// Takes the step of an input that may come, with its meaning.
fn step_on<D: Disk>(
    store: &mut Store<D>,
    chooser: &Chooser,
    input: Input,
    meaning: Meaning,
) -> Result<(), ActError>
    requires event { meaning.event ≡ event_in (facts store.old.history) (Entry.Input input) }
    requires kind { meaning.msg_type ≡ told_type meaning.event (type_on (Entry.Input input)) }
    requires taken { may_take (facts store.old.history) input meaning.event ≡ true }
    requires fits { IsWithinLimits (Entry.Input input) }
    requires no_open { is_open (Entry.Input input) ≡ false }
    requires number { HasNextNumber store.old.history input }
    requires set { IsSet store.old }
    ensures tried { HasTried store.old input result store.new }
    ensures set { IsSet store.new }
    ensures ok { OnOk result (ups store.new.history ≡ ups_after input (ups store.old.history)) }
    ensures err { OnErr result (ups store.new.history ≡ ups store.old.history) }
{
    match store.step(chooser, input, meaning) {
        Ok(()) => Ok(()),
        Err(StepError::Reopen) => Err(ActError::Reopen),
        Err(StepError::HistoryFull { entries, bytes }) => {
            Err(ActError::HistoryFull { entries, bytes })
        }
        Err(StepError::OutOfMemory) => Err(ActError::OutOfMemory),
        Err(StepError::BatchFull) => unreachable!(),
    }
}

/// Takes the step of an input that has no message and may come.
fn take_plain<D: Disk>(
    store: &mut Store<D>,
    chooser: &Chooser,
    input: Input,
) -> Result<(), ActError>
    requires taken { may_take (facts store.old.history) input (event_in (facts store.old.history) (Entry.Input input)) ≡ true }
    requires fits { IsWithinLimits (Entry.Input input) }
    requires no_open { is_open (Entry.Input input) ≡ false }
    requires number { HasNextNumber store.old.history input }
    requires set { IsSet store.old }
    ensures tried { HasTried store.old input result store.new }
    ensures set { IsSet store.new }
    ensures ok { OnOk result (ups store.new.history ≡ ups_after input (ups store.old.history)) }
    ensures err { OnErr result (ups store.new.history ≡ ups store.old.history) }
{
    let meaning = store.understand(&input)?;
    step_on(store, chooser, input, meaning)
}

/// Enters a message that means something on the channel of its connection.
fn enter_on<D: Disk>(
    store: &mut Store<D>,
    chooser: &Chooser,
    stamp: Stamp,
    conn: u32,
    message: SharedMessage,
    understood: Understood,
) -> Result<Acted, ActError>
    requires short { IsShort message }
    requires event { event_in (facts store.old.history) (Entry.Input (Input.In conn stamp.moment stamp.word message)) ≡ Some understood.event }
    requires kind { understood.msg_type ≡ type_on (Entry.Input (Input.In conn stamp.moment stamp.word message)) }
    requires set { IsSet store.old }
    ensures tried { HasTried store.old (Input.In conn stamp.moment stamp.word message) result store.new }
    ensures entered { IfOk result (λ acted. acted ≡ Acted.Entered) }
    ensures set { IsSet store.new }
    ensures ups { ups store.new.history ≡ ups store.old.history }
{
    let meaning = Meaning {
        event: Some(understood.event),
        msg_type: understood.msg_type,
    };
    let Stamp { moment, word } = stamp;
    let input = Input::In {
        conn,
        moment,
        word,
        message,
    };
    match step_on(store, chooser, input, meaning) {
        Ok(()) => Ok(Acted::Entered),
        Err(error) => Err(error),
    }
}

/// Takes a message on a connection, which was read before: best for the channel of the connection, since it is read
/// again for that channel where it is another one.
pub fn act_on<D: Disk>(
    store: &mut Store<D>,
    chooser: &Chooser,
    stamp: Stamp,
    conn: u32,
    reading: Reading,
) -> Result<Acted, ActError>
    requires short { IsShort reading.message }
    requires set { IsSet store.old }
    ensures acted { HasActed store.old stamp.moment stamp.word conn reading.message result store.new }
    ensures set { IsSet store.new }
    ensures ups { ups store.new.history ≡ ups store.old.history }
{
    let Some(channel) = store.core().channel_of(conn) else {
        return Ok(Acted::Gone);
    };
    let reading = reading.for_channel(store.core().allocator(), channel)?;
    let Reading {
        message,
        meaning,
        ..
    } = reading;
    match meaning {
        Ok(understood) => enter_on(store, chooser, stamp, conn, message, understood),
        Err(reason) => Ok(Acted::Junk(reason)),
    }
}

/// Brings up the connection with the number behind the last one, where fewer than 1,024 are live, and counts it.
pub fn open_on<D: Disk>(
    store: &mut Store<D>,
    chooser: &Chooser,
    stamp: Stamp,
    last: &mut u32,
    channel: Channel,
    identity: &[u8],
) -> Result<u32, ActError>
    requires identity { length identity.now < 256 }
    requires counted { last.old ≡ ups store.old.history }
    requires set { IsSet store.old }
    ensures opened { HasOpened store.old stamp.moment stamp.word channel identity.now result store.new }
    ensures counted { last.new ≡ ups store.new.history }
    ensures set { IsSet store.new }
{
    if store.core().live_conns() >= MOST_CONNS {
        return Err(ActError::TooManyConnections);
    }
    let conn = *last + 1;
    let identity = identity_or_number(store.core().allocator(), conn, identity)?;
    let Stamp { moment, word } = stamp;
    let input = Input::Up {
        conn,
        channel,
        moment,
        word,
        identity,
    };
    match take_plain(store, chooser, input) {
        Ok(()) => {
            *last = conn;
            Ok(conn)
        }
        Err(error) => Err(error),
    }
}

/// Takes a connection down, where it is live.
pub fn close_on<D: Disk>(
    store: &mut Store<D>,
    chooser: &Chooser,
    stamp: Stamp,
    conn: u32,
) -> Result<bool, ActError>
    requires set { IsSet store.old }
    ensures closed { HasClosed store.old stamp.moment stamp.word conn result store.new }
    ensures set { IsSet store.new }
    ensures ups { ups store.new.history ≡ ups store.old.history }
{
    if !store.is_live(conn) {
        return Ok(false);
    }
    let Stamp { moment, word } = stamp;
    match take_plain(store, chooser, Input::Down { conn, moment, word }) {
        Ok(()) => Ok(true),
        Err(error) => Err(error),
    }
}

/// Sends a round of heartbeats.
pub fn beat_on<D: Disk>(
    store: &mut Store<D>,
    chooser: &Chooser,
    stamp: Stamp,
) -> Result<(), ActError>
    requires set { IsSet store.old }
    ensures tried { HasTried store.old (Input.Beat stamp.moment stamp.word) result store.new }
    ensures set { IsSet store.new }
    ensures ups { ups store.new.history ≡ ups store.old.history }
{
    let Stamp { moment, word } = stamp;
    take_plain(store, chooser, Input::Beat { moment, word })
}

/// Lets time pass.
pub fn time_on<D: Disk>(
    store: &mut Store<D>,
    chooser: &Chooser,
    stamp: Stamp,
) -> Result<(), ActError>
    requires set { IsSet store.old }
    ensures tried { HasTried store.old (Input.Time stamp.moment stamp.word) result store.new }
    ensures set { IsSet store.new }
    ensures ups { ups store.new.history ≡ ups store.old.history }
{
    let Stamp { moment, word } = stamp;
    take_plain(store, chooser, Input::Time { moment, word })
}

/// Writes what is kept and isn't safe yet, without memory.
pub fn flush_on<D: Disk>(store: &mut Store<D>) -> Result<(), AppendFault>
    requires set { IsSet store.old }
    ensures flushed { HasFlushed D.faults store.old result store.new }
    ensures set { IsSet store.new }
{
    let _mark = store.mark();
    store.flush()
}

/// Cuts off what stands behind the journal of a store, which keeps no room from then on.
pub fn trim_on<D: Disk>(store: &mut Store<D>) -> Result<(), AppendFault>
    requires set { IsSet store.old }
    ensures trimmed { HasTrimmed D.faults store.old result store.new }
    ensures set { IsSet store.new }
{
    store.trim()
}

/// Takes the next out to a connection, where all that is kept up to its entry is safe, without memory.
pub fn take_on<D: Disk>(store: &mut Store<D>, conn: u32) -> Taken
    ensures taken { HasTaken store.old conn result store.new }
    ensures set { IsSet store.old → IsSet store.new }
{
    store.take_out(conn)
}

/// Keeps those of these connections for which `take_on` would answer anything but that there is none yet.
pub fn keep_news_on<D: Disk>(store: &Store<D>, conns: &mut Vec<u32>)
    ensures { conns.new.items ≡ filter (has_news store.now) conns.old.items }
{
    conns.retain(|conn| store.has_news(*conn));
}

/// Whether a shutdown was asked since the last Open.
pub fn stopping_on<D: Disk>(store: &Store<D>) -> bool
    ensures { result ≡ is_stopping store.now.history }
{
    store.core().stopping()
}
