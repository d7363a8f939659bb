//! Writers that fail.

use crate::runs::{REPORT, STATEMENT, bytes_of, run, two_uploads};
use fare_service::{OpenGatekeeper, PrintFault};
use sample_table::Narrow;
use std::test::Fail;
use tap_views::Token;

/// Would catch a text that is reported as written, but whose end was not.
#[test]
fn a_writer_that_fails_after_some_bytes(rt: HostRuntime) -> Result<(), Fail> {
    let alloc = rt.alloc();
    let uploads = two_uploads(alloc)?;
    let outcome = run(&rt, alloc, uploads.as_slice(), 8, 1, &OpenGatekeeper)?;
    for room in 0..REPORT.len() {
        let written = outcome.write_report(&rt, alloc, &mut Narrow { room });
        assert!(rt;
            matches!(written, Err(PrintFault::Write)),
            "{room} bytes of a report"
        );
    }
    outcome.write_report(&rt, alloc, &mut Narrow { room: REPORT.len() })?;
    let token = Token::of(&bytes_of(0xa1));
    for room in 0..STATEMENT.len() {
        let written = outcome.write_statement(alloc, &token, &mut Narrow { room });
        assert!(rt;
            matches!(written, Err(PrintFault::Write)),
            "{room} bytes of a statement"
        );
    }
    outcome.write_statement(
        alloc,
        &token,
        &mut Narrow {
            room: STATEMENT.len(),
        },
    )?;
    Ok(())
}
