//! What the order of outs means, and what holds of every tape.

ghost use Rattle.std.specs.Prelude.{◌≡◌, ◌∷◌, ℕ, List, [], Err};
ghost use Rattle.cluster_types.specs.declared.config.Scheme.{Scheme};
ghost use Rattle.cluster_types.specs.declared.out.Out.{Out};
ghost use Rattle.cluster_defs.specs.Outs.{outs_on};
ghost use Rattle.cluster_core.specs.declared.size.HistorySize.{HistorySize};
ghost use Rattle.jupyter_parts.specs.declared.fault.PartsError.{PartsError};
ghost use Rattle.jupyter_parts.specs.Signed.{read_parts};
ghost use Rattle.tape_drive.specs.Inputs.{in_of};
ghost use Rattle.tape_drive.specs.Lawful.{Rests, Unheard};
ghost use Rattle.tape_drive.specs.Order.{Ascends};
ghost use Rattle.tape_drive.specs.Sends.{by_connection};
ghost use Rattle.tape_drive.specs.Drive.{Stand, start, drive_stand};
ghost use Rattle.tape.specs.declared.record.TapeKind.TheVariants.{Message};

/// The outs of a step go to connections in ascending number.
pub fn connections_ascend()
    ensures { (outs : List Out) → Ascends (by_connection outs) }
{}

/// To each connection go the outs of the step to it, each once and in order.
pub fn order_is_kept()
    ensures { (conn : ℕ) (outs : List Out) → outs_on conn (by_connection outs) ≡ outs_on conn outs }
{}

/// Whatever a tape holds, the history that it is served with is legal, and no decision is due after it.
pub fn histories_are_legal()
    ensures { (key : List ℕ) (limits : HistorySize) (scheme : Scheme) (hwm misses : ℕ) (octets : List ℕ) → Rests (drive_stand key (start [] limits scheme hwm misses) octets).history }
{}

/// Frames that aren't a signed message are no input, so they change nothing and nothing is sent for them.
pub fn unsigned_is_no_input()
    ensures { (key : List ℕ) (conn moment word : ℕ) (frames : List (List ℕ)) (fault : PartsError) → read_parts key frames ≡ Err fault → in_of key conn moment word frames ≡ [] }
{}

/// A record of frames that aren't a signed message leaves the history as it was, and nothing is sent for it.
pub fn unsigned_changes_nothing()
    ensures { (key : List ℕ) (s : Stand) (moment word conn : ℕ) (frames : List (List ℕ)) (fault : PartsError) → read_parts key frames ≡ Err fault → Unheard key s (record { moment = moment; word = word; kind = Message conn frames }) }
{}
