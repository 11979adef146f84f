//! What a power cut leaves of a store of accounts.

ghost use Rattle.account_store.specs.Laws.{AccountsCutLaw};

/// Wherever the power is cut, and whatever each line keeps of its pending stores, what is left can be recovered: to the balances of the
/// last checkpoint, or, while the next epoch is pending, to those of the next. The sum of all balances is the same.
pub fn cut_law()
    ensures { AccountsCutLaw }
{
    epoch_cells::cut_law();
}
