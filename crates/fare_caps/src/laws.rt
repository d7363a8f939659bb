//! Theorems about every list of taps under caps, each the contract of a function that does nothing.

ghost use Rattle.fare_caps.specs.Laws.{CapsKeepTheirCeilings, LaterTapsChangeNothing};
ghost use Rattle.fare_caps.specs.Laws.{NoCapsChangeNothing, NoCapsLeaveTheWindow};
ghost use Rattle.fare_caps.specs.Laws.{OneMoreCapIsNeverDearer, TapsAreTheBill, WindowsAddUp};

/// With no cap beside `window` and no price of a transfer, replies and windows are those of `account_rule`.
pub fn no_caps_change_nothing()
    ensures replies { NoCapsChangeNothing }
    ensures window { NoCapsLeaveTheWindow }
{}

/// Each reply depends on the taps before it alone.
pub fn later_taps_change_nothing()
    ensures { LaterTapsChangeNothing }
{}

/// No window of a cap, or of `window`, counts more than the highest ceiling of its taps.
pub fn caps_keep_their_ceilings()
    ensures { CapsKeepTheirCeilings }
{}

/// The windows of each cap add up to what it counts of rides and transfers, and these to all
/// replies.
pub fn windows_add_up()
    ensures windows { WindowsAddUp }
    ensures bill { TapsAreTheBill }
{}

/// If all caps count all modes, one more cap never costs more. Otherwise it can.
pub fn one_more_cap_is_never_dearer()
    ensures { OneMoreCapIsNeverDearer }
{}
