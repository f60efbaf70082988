//! Laws of the answers.

ghost use Rattle.std.specs.Prelude.{◌≡◌, ℕ, List, Option, Ok};
ghost use Rattle.std.specs.Cmp.Lexicographic.{slice_cmp};
ghost use Rattle.std.specs.Ordering.{nat_cmp};
ghost use Rattle.std.specs.List.Sorted.{IsStrictlySortedBy};
ghost use Rattle.cluster_types.specs.declared.message.Message.{Message};
ghost use Rattle.engine_core.specs.declared.request.ExecuteRequest.{ExecuteRequest};
ghost use Rattle.engine_core.specs.Request.{read_execute, names_of};
ghost use Rattle.engine_core.specs.State.{Standing};
ghost use Rattle.engine_core.specs.Answer.{Answers};

/// A message at a moment has one answer, and leaves one engine.
pub fn one_answer()
    ensures reply { (before : Standing) (message : Message) (moment : ℕ) (a b : Option Message) (s t : Standing) → Answers before message moment a s → Answers before message moment b t → a ≡ b }
    ensures engine { (before : Standing) (message : Message) (moment : ℕ) (a b : Option Message) (s t : Standing) → Answers before message moment a s → Answers before message moment b t → s ≡ t }
{}

/// The user expressions of a request come by ascending name, octet by octet, and each name once.
pub fn names_ascend()
    ensures { (content : List ℕ) (request : ExecuteRequest) → read_execute content ≡ Ok request → IsStrictlySortedBy (slice_cmp nat_cmp) (names_of request.user_expressions) }
{}
