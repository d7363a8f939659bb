//! Theorems about every list of taps, each the contract of a function that does nothing.

ghost use Rattle.account_rule.specs.Agreement.{AgreeingRulesReplyAlike, TablesWaitForTheirDate};
ghost use Rattle.account_rule.specs.Laws.{EqualFaresAreChargedByPositions};
ghost use Rattle.account_rule.specs.Laws.{HigherTermsAreNeverCheaper, TripsAreTheOnlyBlocks};
ghost use Rattle.account_rule.specs.Laws.{WindowsAreTheOnlyBlocks, WindowsGrowWithinLimits};
ghost use Rattle.account_rule.specs.Laws.{WindowsKeepTheCeiling, WindowsKeepTheRideLimit};
ghost use Rattle.account_rule.specs.Laws.{WindowsShareTheCents, WindowsShareThePaidRides};
ghost use Rattle.account_rule.specs.{Laws.WindowsShareTheRides, NoTransfers.RidesLackTransfers};
ghost use Rattle.account_rule.specs.OneTransfer.{TripsOfOneTransfer};
ghost use Rattle.account_rule.specs.Reasons.{GiversAreRides, RepliesFollow};

/// Only the trips divide live taps by transfers, and only the windows divide rides by window ends.
pub fn only_blocks()
    ensures trips { TripsAreTheOnlyBlocks }
    ensures windows { WindowsAreTheOnlyBlocks }
{}

/// No window has more paid rides than its rides' terms allow, or costs more than their ceiling.
pub fn windows_keep_limits()
    ensures rides { WindowsKeepTheRideLimit }
    ensures ceiling { WindowsKeepTheCeiling }
{}

/// With each ride, a window's paid rides and cents stay as they are or within that ride's limits.
pub fn windows_grow_within_limits()
    ensures { WindowsGrowWithinLimits }
{}

/// Each reply to a ride is its charge in its window, and the windows add up to all replies.
pub fn windows_add_up()
    ensures rides { WindowsShareTheRides }
    ensures cents { WindowsShareTheCents }
    ensures paid { WindowsShareThePaidRides }
{}

/// No fare, ride limit or ceiling that is raised makes a token's taps cheaper.
pub fn higher_terms_are_never_cheaper()
    ensures { HigherTermsAreNeverCheaper }
{}

/// In a window of equal terms, with a fare above 0, the index of a ride decides what it costs.
pub fn equal_fares_are_charged_by_positions()
    ensures { EqualFaresAreChargedByPositions }
{}

/// With one transfer a ride, rides and transfers alternate while taps are in time and permitted.
pub fn trips_of_one_transfer()
    ensures { TripsOfOneTransfer }
{}

/// Of each ride, `Account::no_transfer` names a condition of a transfer that fails.
pub fn rides_lack_transfers()
    ensures { RidesLackTransfers }
{}

/// The reply to each tap follows from its reason, and what gives a transfer is a ride.
pub fn replies_follow_reasons()
    ensures replies { RepliesFollow }
    ensures givers { GiversAreRides }
{}

/// Rules that say the same of each tap of a list give it the same replies.
pub fn agreeing_rules_reply_alike()
    ensures { AgreeingRulesReplyAlike }
{}

/// Taps before the date of a table are charged as by the tables before it alone.
pub fn tables_wait_for_their_date()
    ensures { TablesWaitForTheirDate }
{}
