//! Laws of the words that the contracts cite, for those who reason from them. Each is a function with an empty body.

ghost use Rattle.byte_ports.specs.Laws.{AppendsJoinLaw, TakesJoinLaw, SettingANameLaw, ZeroNeverRisesLaw, ListedCallsFailLaw, EmptyListNeverFailsLaw};

/// What was appended in two steps was appended in one.
pub fn appends_join()
    ensures { AppendsJoinLaw }
{}

/// What was taken in two steps was taken in one.
pub fn takes_join()
    ensures { TakesJoinLaw }
{}

/// A name that was set has the bytes that it was set to, and every other name has what it had.
pub fn setting_a_name()
    ensures { SettingANameLaw }
{}

/// A count that is 0 and stays 0 did not rise: over a sure source `read_all` never answers `Failed`.
pub fn zero_never_rises()
    ensures { ZeroNeverRisesLaw }
{}

/// Of an object in memory a call fails exactly where its number stands on the list.
pub fn listed_calls_fail()
    ensures { ListedCallsFailLaw }
{}

/// Of an object in memory with an empty list no call fails, and the count of faults stays.
pub fn empty_list_never_fails()
    ensures { EmptyListNeverFailsLaw }
{}
