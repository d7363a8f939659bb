//! What is wrong with a line or a row of a file that is loaded, in words.
use crate::fault::Fault;
use ledger_changes::WrongLine;
use report_texts::Wrong;
use tap_rows::{Column, DevicesFault, Reason, RowsFault, WrongDevice, WrongKey};

fn column_text(column: Column) -> &'static str {
    match column {
        Column::Fields => "there are not three fields",
        Column::Token => "the token is not 32 hexadecimal digits",
        Column::Validator => "the validator is no number from 0 to 4294967295",
        Column::Moment => "the moment is no number of milliseconds below 4102444800000",
    }
}

/// The fault of a tap table.
pub(crate) fn fault_of_taps(word: &str, fault: RowsFault) -> Fault<'_> {
    match fault {
        RowsFault::Head => Fault::Line(word, 1, "it is not token,validator,moment"),
        RowsFault::Row { number, column } => Fault::Line(word, number, column_text(column)),
        RowsFault::NoMemory => Fault::NoMemory,
    }
}

fn device_text(wrong: WrongDevice) -> &'static str {
    match wrong {
        WrongDevice::Fields => "there are not two fields",
        WrongDevice::NoName => "the device is empty",
        WrongDevice::Validator => "the validator is no number from 0 to 4294967295",
        WrongDevice::Again => "the device is in an earlier row, too",
    }
}

/// The fault of a device table.
pub(crate) fn fault_of_devices(word: &str, fault: DevicesFault) -> Fault<'_> {
    match fault {
        DevicesFault::Head => Fault::Row(word, 1, "it is not device,validator"),
        DevicesFault::Row { number, wrong } => Fault::Row(word, number, device_text(wrong)),
        DevicesFault::NoMemory => Fault::NoMemory,
    }
}

/// Why a row of an agency's CSV is not a tap.
pub(crate) fn reason_text(reason: Reason) -> &'static str {
    match reason {
        Reason::Fields => "there are not as many fields as in the head",
        Reason::Token => "the token is neither 32 hexadecimal digits nor a UUID",
        Reason::Validator => "the validator is no number from 0 to 4294967295",
        Reason::Device => "the device is none of --validators",
        Reason::LocalTime => "the moment is a local time: it has neither Z nor an offset",
        Reason::Skipped => "the moment is a local time that clocks skip",
        Reason::Twice => "the moment is a local time that comes twice: say --fold",
        Reason::Early => "the moment is before 2000: say --unit s or --unit ms",
        Reason::Moment => "the moment is no time before 2100",
        Reason::Riders => "the row is not of one rider",
    }
}

pub(crate) fn key_text(wrong: WrongKey) -> &'static str {
    match wrong {
        WrongKey::Empty => "the key is empty",
        WrongKey::Long => "the key has more than 65536 bytes",
    }
}

/// Why a line of a part cannot be merged.
pub(crate) fn part_text(wrong: Wrong) -> &'static str {
    match wrong {
        Wrong::Form => "no such line stands there",
        Wrong::NotPosted => "the upload of a part was not posted",
        Wrong::Order => "it does not follow the line or the part before it",
        Wrong::Totals => "the sums do not add up to the totals",
    }
}

pub(crate) fn ledger_text(wrong: WrongLine) -> &'static str {
    match wrong {
        WrongLine::Form => "no such line stands there",
        WrongLine::Order => "out of order; is the ledger settled?",
    }
}
