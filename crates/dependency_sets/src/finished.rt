//! How tasks were settled.

ghost use Rattle.std.specs.Prelude.{◌≡◌, Option};
ghost use Rattle.cluster_defs.specs.Words.{Id};
ghost use Rattle.cluster_defs.specs.declared.settled.Settled.{Settled as SettledType};

use cluster_defs::settled::Settled;
use cluster_types::text::Text;

/// How each id was settled. Its call takes no memory.
pub trait Finished {
    /// How each id was settled, where it was.
    ghost finished: { Self → Id → Option SettledType };

    /// How an id was settled, where it was.
    fn settled(&self, id: &Text) -> Option<Settled>
        ensures { result ≡ finished self.now id.now };
}
