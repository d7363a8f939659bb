//! Theorems about tables and uploads, each the contract of a function that does nothing.

ghost use Rattle.fare_texts.specs.Moments.{IsCivilText};
ghost use Rattle.std.specs.List.{AllByRecursion};
ghost use Rattle.std.specs.Prelude.{◌≡◌, ◌<◌, ℕ, List, None, Option};
ghost use Rattle.tap_rows.specs.{Agencies.IsRead, Decoded.fields_in};
ghost use Rattle.tap_rows.specs.Devices.{AreDevices, Device, IsDevicesFault};
ghost use Rattle.tap_rows.specs.Moments.{IsMoment, IsSecondText};
ghost use Rattle.tap_rows.specs.Rows.{IsNoTapRow, IsTapRow, IsTapFields};
ghost use Rattle.tap_rows.specs.TapTables.{IsBadRow, IsTapTable, tap_table_text};
ghost use Rattle.tap_rows.specs.declared.agency.choice.{Choice.Choice, Separator.Separator};
ghost use Rattle.tap_rows.specs.declared.{agency.reading.Reading.Reading, column.Column.Column};
ghost use Rattle.tap_rows.specs.declared.devices.fault.DevicesFault.{DevicesFault};
ghost use Rattle.tap_views.specs.{Files.IsFileOf, Files.IsReadAs, Layout.Tap, Layout.moment_limit};
ghost use Rattle.tap_views.specs.declared.encoder.TapFields.{TapFields};
ghost use Rattle.tap_views.specs.declared.fault.LayoutFault.{LayoutFault};

/// A line is the row of at most one tap, and then it is not a bad row.
pub fn one_row()
    ensures tap { (line : List ℕ) (tap other : TapFields) → IsTapRow line tap → IsTapRow line other
        → tap ≡ other }
    ensures valid { (line : List ℕ) (tap : TapFields) (column : Column) → IsTapRow line tap
        → ¬ (IsNoTapRow line column) }
{}

/// A text is the table of at most one list of taps, and then it has no bad row.
pub fn one_tap_table()
    ensures taps { (text : List ℕ) (taps others : List TapFields) → IsTapTable text taps
        → IsTapTable text others → taps ≡ others }
    ensures valid { (text : List ℕ) (taps : List TapFields) (number : ℕ) (column : Column)
        → IsTapTable text taps → ¬ (IsBadRow text number column) }
{}

/// The table that is written of some taps is their table: encoded, it gives the same taps again.
pub fn reads_back()
    ensures { (taps : List TapFields) → AllByRecursion IsTapFields taps
        → IsTapTable (tap_table_text taps) taps }
{}

/// A moment's text in UTC is read as this moment, with milliseconds or without them if they are 0.
pub fn reads_utc()
    ensures civil { (moment : ℕ) (text : List ℕ) → moment < moment_limit → IsCivilText moment text
        → IsMoment text moment }
    ensures seconds { (moment : ℕ) (text : List ℕ) → moment < moment_limit
        → IsSecondText moment text → IsMoment text moment }
{}

/// An agency's CSV is read in at most one way: one head, one list of rows, a reading for each row.
pub fn unique_parse_of_rows()
    ensures { (choice : Choice) (text : List ℕ) (head other : List (List ℕ))
        (rows others : List (List (List ℕ))) (readings again : List Reading)
        → IsRead choice text head rows readings → IsRead choice text other others again
        → (head ≡ other) × (rows ≡ others) × (readings ≡ again) }
{}

/// A text is the device table of at most one list of devices, and then only memory can be missing.
pub fn one_device_table()
    ensures devices { (separator : Separator) (text : List ℕ) (devices others : List Device)
        → AreDevices separator text devices → AreDevices separator text others → devices ≡ others }
    ensures valid { (separator : Separator) (text : List ℕ) (devices : List Device)
        (fault : DevicesFault) → AreDevices separator text devices
        → IsDevicesFault separator text fault → fault ≡ DevicesFault.NoMemory }
{}

/// An upload of some taps is decoded as these taps, in their order, without a layout fault.
pub fn decodes_back(upload: &[u8])
    ensures { (taps : List TapFields) (batches : List (List Tap)) (fault : Option (ℕ × LayoutFault))
        → IsFileOf upload.now taps → IsReadAs upload.now batches fault → (fields_in batches ≡ taps)
        × (fault ≡ None) }
{
    tap_views::laws::unique_parse(upload)
}
