//! Theorems about the definitions, each the contract of a small function.

ghost use Rattle.tap_views.specs.declared.token.Token.{Token};
ghost use Rattle.shard_book.specs.Windows.{WindowsKeepLimits};

use crate::book::ShardBook;
pub use histories::laws::{beginnings_are_legal, one_increasing_list, sums_add_up};

/// Under one table without caps no window has more paid rides than the limit or costs more than the
/// ceiling. Under several, each ride keeps its window within what it was or within the ride's own
/// limits. With caps no window of any costs more than the highest ceiling of its rides. The token's
/// entries were charged what its windows cost.
pub fn book_keeps_limits(book: &ShardBook)
    ensures { (token : Token) → WindowsKeepLimits book.now.table book.now.entries token }
{
    let _ = book.len();
    account_rule::laws::windows_keep_limits();
    account_rule::laws::windows_grow_within_limits();
    account_rule::laws::windows_add_up();
    fare_caps::laws::caps_keep_their_ceilings();
    fare_caps::laws::windows_add_up();
}
