//! Laws of calls and their movements.
ghost use Rattle.mf_moves.specs.Laws.{ChangesAreCovered, DoneHandsOn, LeadsHandOn, MovementsHandOn, RepliesAreCovered, ShowsAreCovered, TwoCallsHandOn};

/// Whatever entity is otherwise after a call, its movements lead there from the caller, and to the directory that it comes into or
/// leaves; or it is the caller himself, something new, or one of the exceptions that `IsCovered` names.
pub fn changes_are_covered()
    ensures { ChangesAreCovered }
{}

/// What a call that is done hands back is the same wherever all is the same from which its movements lead to the caller, given the
/// same policies and the same names of processes, pipes and sockets.
pub fn shows_are_covered()
    ensures { ShowsAreCovered }
{}

/// So is the whole reply, errors and denials too, where besides attributes, labels, credentials, sizes, counts, names in directories
/// and the number of entities are the same.
pub fn replies_are_covered()
    ensures { RepliesAreCovered }
{}

/// What movements that count lead to has all sources of what they lead from, where nobody on the way is labelled equal.
pub fn movements_hand_on()
    ensures { MovementsHandOn }
{}

/// So it is with all movements of a call, where all count and nobody to whom one moves is labelled equal.
pub fn leads_hand_on()
    ensures { LeadsHandOn }
{}

/// So it is with a call in a history.
pub fn done_hands_on()
    ensures { DoneHandsOn }
{}

/// So it is with two calls of a legal history, where what the first leads to is what the second leads from.
pub fn two_calls_hand_on()
    ensures { TwoCallsHandOn }
{}
