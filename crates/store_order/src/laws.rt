//! Laws on choices, the contract of a function that does nothing. They tie what a choice leaves to what may be left.

ghost use Rattle.store_order.specs.Choice.{KeepsWhatIsPendingLaw};
ghost use Rattle.store_order.specs.Survivors.{LeavesSurvivorsLaw};

/// A choice never keeps more stores of a line than are pending on it, so that what it leaves of a bank may be left.
pub fn choice_laws()
    ensures few { KeepsWhatIsPendingLaw }
    ensures survivors { LeavesSurvivorsLaw }
{}
