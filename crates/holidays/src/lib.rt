// Holiday lists, and when they are legal (Rule 2.6). It meets specs/Holidays. Which days carry windows under a list is
// said in crate `calendar`.
// Main theorem: a list is accepted exactly when it is legal (`legal_holidays`, proofs/Lists).
#![tactic(auto)]

ghost use Rattle.std.specs.Prelude.{◌≡◌};
ghost use Rattle.holidays.specs.Holidays.{bad_holiday, bad_holidays};

// Is a day, from 1, no larger than the entry before it in the list (0 before the first), or behind 31 December? Any day
// has an answer.
// Kept: 0 and no Option before the first entry, as the definition has it: a listed day is above 0.
pub fn bad_holiday(year: u16, last: u16, day: u16) -> bool
    ensures { result ≡ bad_holiday year last day }
{
    (day <= last) | (dates::year_days(year) < day)
}

// Is a holiday list not legal (answer 3): more than 40 entries, an entry that is no larger than the one before it, or
// one outside the year?
pub fn bad_holidays(year: u16, holidays: &[u16]) -> bool
    ensures { result ≡ bad_holidays year holidays.now }
{
    if answers::HOLIDAYS_MOST < holidays.len() {
        return true;
    }
    let mut last = 0;
    for day in holidays {
        if bad_holiday(year, last, *day) {
            return true;
        }
        last = *day;
    }
    false
}
