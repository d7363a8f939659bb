//! The rows of an agency's own CSV, as an upload: the columns are found by their names, and the
//! rows are selected by their values.

mod choice;
mod fault;
mod formatted;
mod instant;
mod key;
mod local;
mod note;
mod numbers;
mod positions;
mod reading;
mod records;
mod refusals;
mod summary;
mod writing;

pub use choice::{Choice, Columns, Condition, Fold, LocalClock, Separator, Unit};
pub use fault::{AgencyFault, Wanted};
pub use key::{TokenKey, WrongKey};
pub(crate) use positions::{Positions, has_at, positions_of};
pub(crate) use reading::{field_in, is_kept};
pub use reading::{Reading, Reason};
pub(crate) use records::{next_record, records_of};
pub(crate) use refusals::text_of;
pub use summary::Summary;
pub use writing::{EncodedRows, encode_rows};
