//! The laws of answers: where a handle tells the yard's state, each call has an answer, and the state behind it is lawful.
ghost use Rattle.room_yard.specs.Laws.{LeaveIsDecidedLaw, ClaimIsDecidedLaw, NextWordShowsLaw, AnswersSetOwnViewLaw, LeaveRestLooksLaw, ClaimRestLooksLaw, HeldLooksLaw, LeaveAnswersLaw, LeaveRestAnswersLaw, ClaimAnswersLaw, ClaimRestAnswersLaw, LockAnswersLaw, HeldAnswersLaw};
ghost use Rattle.room_yard.specs.Laws.{UnlockAnswersLaw, RetreatAnswersLaw, DrawAnswersLaw, StandAnswersLaw, RefusalAnswersLaw, ReleaseAnswersLaw, PowerAnswersLaw, TickAnswersLaw, OffAnswersLaw};

/// A word that is found allows a thread to leave, or forbids it.
pub fn leave_is_decided_law()
    ensures { LeaveIsDecidedLaw }
{}

/// A word that is found allows a thread to claim, or forbids it.
pub fn claim_is_decided_law()
    ensures { ClaimIsDecidedLaw }
{}

/// The arrival word with which an epoch begins shows what belongs to it.
pub fn next_word_shows_law()
    ensures { NextWordShowsLaw }
{}

/// A thread that may not leave now looked at the arrival word in this call, and met this last.
pub fn leave_rest_looks_law()
    ensures { LeaveRestLooksLaw }
{}

/// A thread that may not claim now looked at the arrival word in this call, and met this last.
pub fn claim_rest_looks_law()
    ensures { ClaimRestLooksLaw }
{}

/// A thread that found a lock taken looked at it in this call.
pub fn held_looks_law()
    ensures { HeldLooksLaw }
{}

/// Behind each answer the views are those before the call, with the thread's own as it is now.
pub fn answers_set_own_view_law()
    ensures { AnswersSetOwnViewLaw }
{}

/// A leave that the arrival word allows has its answer.
pub fn leave_answers_law()
    ensures { LeaveAnswersLaw }
{}

/// A leave that the arrival word forbids has its answer.
pub fn leave_rest_answers_law()
    ensures { LeaveRestAnswersLaw }
{}

/// A claim that the arrival word allows has its answer.
pub fn claim_answers_law()
    ensures { ClaimAnswersLaw }
{}

/// A claim that the arrival word forbids has its answer.
pub fn claim_rest_answers_law()
    ensures { ClaimRestAnswersLaw }
{}

/// A lock of a free room has its answer.
pub fn lock_answers_law()
    ensures { LockAnswersLaw }
{}

/// A lock of a room that is taken has its answer.
pub fn held_answers_law()
    ensures { HeldAnswersLaw }
{}

/// An unlock has its answer.
pub fn unlock_answers_law()
    ensures { UnlockAnswersLaw }
{}

/// A retreat has its answer.
pub fn retreat_answers_law()
    ensures { RetreatAnswersLaw }
{}

/// A draw has its answer.
pub fn draw_answers_law()
    ensures { DrawAnswersLaw }
{}

/// A stand with no room held has its answer.
pub fn stand_answers_law()
    ensures { StandAnswersLaw }
{}

/// A stand with a room held has its answer.
pub fn refusal_answers_law()
    ensures { RefusalAnswersLaw }
{}

/// A release has its answer.
pub fn release_answers_law()
    ensures { ReleaseAnswersLaw }
{}

/// A look at the power has its answer.
pub fn power_answers_law()
    ensures { PowerAnswersLaw }
{}

/// A tick has its answer.
pub fn tick_answers_law()
    ensures { TickAnswersLaw }
{}

/// To turn the power off has its answer.
pub fn off_answers_law()
    ensures { OffAnswersLaw }
{}
