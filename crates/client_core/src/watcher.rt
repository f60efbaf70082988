//! A stored closure, with the fact that it notes what is to be noted.

ghost use Rattle.std.specs.Prelude.{◌≡◌};
ghost use Rattle.client_core.specs.Noting.{note_of};

use crate::answered::Answered;
use crate::noted::Noted;
use crate::notes::Notes;

/// Notes what a task answered, and whether it ran without an error.
pub type Done = Box<dyn FnOnce(Answered, bool) -> Noted + Send>;

/// A closure that may be called on every answer and flag, and answers the note of these.
#[derive(Drop)]
pub struct Watcher {
    done: Done,
    ghost callable: { (answered : _) (ok : _) → Done.pre done answered ok },
    ghost right: { (answered : _) (ok : _) (noted : _) → Done.post done answered ok noted → noted ≡ note_of answered ok },
}

impl Watcher {
    /// A watcher of a closure that is right on every answer and flag.
    pub(crate) fn new(done: Done) -> Watcher
        requires callable { (answered : _) (ok : _) → Done.pre done answered ok }
        requires right { (answered : _) (ok : _) (noted : _) → Done.post done answered ok noted → noted ≡ note_of answered ok }
        ensures { result.done ≡ done }
    {
        Watcher { done }
    }
}

impl Notes for Watcher {
    fn note(self, answered: Answered, ok: bool) -> Noted {
        (self.done)(answered, ok)
    }
}
