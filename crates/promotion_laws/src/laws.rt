//! The law, as the contract of a function that does nothing.

ghost use Rattle.promotion_laws.specs.Promoted.{PromotedIsLife, PromotedIsLegal, PromotedBelongs};

/// Where a standby's list is what is kept of a front of its primary's history that has all that is safe, and after which no
/// decision is due, the primary's life goes on with a crash to this list and the Open of the promotion. So the history that
/// goes on is legal, and all that the primary ever sent belongs to it.
pub fn promotions_go_on()
    ensures life { PromotedIsLife }
    ensures legal { PromotedIsLegal }
    ensures sent { PromotedBelongs }
{}
