// Why a day of a year is free, or that it carries windows: the type stands here, the definitions in specs/Kinds, and
// the room `calendar` has the code that meets them. Rules 3.3 and 3.4.
// Main theorem: a day carries windows exactly when no ground makes it free, and a week has one bridge day at most
// (`carries_when`, `one_bridge`, proofs/Weeks).
#![tactic(auto)]

// A day carries windows, or why it is free.
#[derive(Clone, Copy, PartialEq, Eq)]
pub enum DayKind {
    Windows,
    Weekend,
    Listed,
    Christmas,
    Bridge,
}
