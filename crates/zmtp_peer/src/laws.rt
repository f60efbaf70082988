//! Laws of a peer's stream.

ghost use Rattle.std.specs.Prelude.{◌≡◌, List, ℕ, ◌++◌, All, IfSome};
ghost use Rattle.zmtp_peer.specs.declared.phase.Phase.{Phase};
ghost use Rattle.zmtp_peer.specs.Connection.{IsConnection, IsFaultless};
ghost use Rattle.zmtp_peer.specs.Limits.{IsShortMessage, IsShortIdentity};
ghost use Rattle.zmtp_peer.specs.PeerStream.{Talk, begins, talked, sent, identity, or_later, messages, peer_stream, with_piece};

/// It doesn't matter how a stream is cut.
pub fn any_pieces()
    ensures state { (t : Talk) (xs ys : List ℕ) → talked t (xs ++ ys) ≡ talked (talked t xs) ys }
    ensures sent { (t : Talk) (xs ys : List ℕ) → sent t (xs ++ ys) ≡ sent t xs ++ sent (talked t xs) ys }
    ensures identity { (t : Talk) (xs ys : List ℕ) → identity t (xs ++ ys) ≡ or_later (identity t xs) (identity (talked t xs) ys) }
    ensures messages { (t : Talk) (xs ys : List ℕ) → messages t (xs ++ ys) ≡ messages t xs ++ messages (talked t xs) ys }
{}

/// What all octets so far give is what they gave before a piece, with what the feed of the piece gives.
pub fn next_piece()
    ensures { (octets piece : List ℕ) → peer_stream (octets ++ piece) ≡ with_piece (peer_stream octets) (talked begins octets) piece }
{}

/// A stream that is in traffic is a greeting, a READY and messages: what it gave is what its frames say.
pub fn in_traffic()
    ensures { (octets : List ℕ) → (talked begins octets).phase ≡ Phase.Traffic → IsConnection octets (talked begins octets) (sent begins octets) (identity begins octets) (messages begins octets) }
{}

/// A stream that has no fault by the grammar of frames and the limits of messages is in traffic.
pub fn faultless()
    ensures { (octets : List ℕ) → IsFaultless octets → (talked begins octets).phase ≡ Phase.Traffic }
{}

/// Whatever octets come, the messages and the identity that they give are within the limits.
pub fn within_limits()
    ensures messages { (octets : List ℕ) → All IsShortMessage (messages begins octets) }
    ensures identity { (octets : List ℕ) → IfSome (identity begins octets) IsShortIdentity }
{}
