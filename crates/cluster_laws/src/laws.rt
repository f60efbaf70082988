//! Laws of histories, over the definitions alone.

ghost use Rattle.cluster_defs.specs.Laws.{KeptIsLegal, KeptIsOwn, KeptReadsSame, KeptOrder, UseAscends, UseHasLive, DrawsByWord, SettlesAtMoment, IsSafe, ImpossibleStays, LifeIsLegal, SentBelongs, AnsweredAlike, ThinIsLegal, ThinIsKept, ThinDue, ThinGoesOn, ThinSendsSame, DueFalls, DecidesMore, DecidesNone, KnownOnce, KnownStays, LiveAscend, HandsSend, SettledAnswered, RecordsHold, SettledEngine, RecordsAnswer, RecordsPlan};

/// The kept entries of a legal history make a legal history that is its own kept one, and read the same; the places of
/// last use differ, but not their order.
pub fn kept_reads_the_same()
    ensures legal { KeptIsLegal }
    ensures own { KeptIsOwn }
    ensures same { KeptReadsSame }
    ensures order { KeptOrder }
{}

/// The order of the engines ascends by the places of their last use and has each live one; a hand-out draws by the word
/// of the newest input, and a settle has its moment, whether that input is kept or not.
pub fn uses_in_order()
    ensures ascends { UseAscends }
    ensures live { UseHasLive }
    ensures word { DrawsByWord }
    ensures moment { SettlesAtMoment }
{}

/// Each legal history has the five safe words: an id is settled at most once and not handed out after that; each
/// hand-out comes after what it waits for, goes to where what it follows finished, and to a live engine that is a
/// target; and an id is handed out at most once more than its retries, declined hand-outs apart.
pub fn histories_are_safe()
    ensures { IsSafe }
{}

/// What is settled as impossible could not have run on any engine later on, whatever comes.
pub fn impossible_stays()
    ensures { ImpossibleStays }
{}

/// Over every life, with crashes at any moment, the history is legal, and what was ever sent belongs to it; an outcome
/// that was sent stays the outcome.
pub fn sent_belongs()
    ensures legal { LifeIsLegal }
    ensures sent { SentBelongs }
    ensures alike { AnsweredAlike }
{}

/// What a purge lets go is read by nothing later: the thin history is legal, and the same entries go on from it, from an
/// Open on, and send the same.
pub fn thin_goes_on()
    ensures legal { ThinIsLegal }
    ensures kept { ThinIsKept }
    ensures due { ThinDue }
    ensures further { ThinGoesOn }
    ensures outs { ThinSendsSame }
{}

/// Each due decision leaves less to decide; all due decisions are those after one more, and none where none is due.
pub fn decisions_end()
    ensures falls { DueFalls }
    ensures more { DecidesMore }
    ensures none { DecidesNone }
{}

/// No id is known twice, and what was known when something was sent is known still; the live engines ascend by number,
/// and no two have one connection or one uuid.
pub fn names_are_apart()
    ensures known { KnownOnce }
    ensures stays { KnownStays }
    ensures engines { LiveAscend }
{}

/// A hand-out sends the request to the connection of its engine, and what is settled has an outcome.
pub fn nothing_is_missing()
    ensures sends { HandsSend }
    ensures answered { SettledAnswered }
{}

/// The records of all tasks are what a table of records keeps to; what is settled has had no attempt since; and each
/// question is answered the same off the records and the live engines, and each purge and resubmission comes to the
/// same off the records.
pub fn records_are_sound()
    ensures records { RecordsHold }
    ensures engine { SettledEngine }
    ensures answer { RecordsAnswer }
    ensures plan { RecordsPlan }
{}
