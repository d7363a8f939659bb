//! The form of the text that the words name.

use fare_program::FormatWords;
use program_manners::report_line;
use std::io::Write;
use text_forms::Form;

/// The form of the text. Any text can be written as it is. What is wrong was reported.
pub(crate) fn form_of<E: Write>(words: &FormatWords<'_>, err: &mut E) -> Option<Form> {
    let form = Form::of(words.form.unwrap_or("text"));
    match (form, words.other) {
        (None, _) => report_line(err, "fault: --format is text, json or csv"),
        (Some(Form::Text), _) => return form,
        _ if !words.has_table => report_line(err, "fault: --format needs --table"),
        (_, None) => return form,
        (_, Some(name)) => {
            report_line(
                err,
                format_args!("fault: --format cannot be used with --{name}"),
            );
        }
    }
    None
}
