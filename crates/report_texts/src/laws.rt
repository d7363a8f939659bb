//! Theorems about a report's lines: the line of a value says this value, and no other line does.

ghost use Rattle.fare_texts.specs.Counts.{totals_line};
ghost use Rattle.fare_texts.specs.ReportLines.{number_line, token_line, validator_line};
ghost use Rattle.histories.specs.Sums.{Sums};
ghost use Rattle.report_texts.specs.Forms.{head_in, token_line_in, totals_in, upload_in};
ghost use Rattle.report_texts.specs.Forms.{validator_in};
ghost use Rattle.report_texts.specs.Numbers.{AreCounts, IsTokenSum, IsUploadEnd, IsValidatorSum};
ghost use Rattle.report_texts.specs.Report.{upload_line};
ghost use Rattle.std.specs.Prelude.{◌≡◌, ◌<◌, ◌^◌, ℕ, List, Some};
ghost use Rattle.tap_views.specs.declared.{token.Token.Token, upload_end.UploadEnd.UploadEnd};

/// The head of a section is read back.
pub fn heads_are_read()
    ensures complete { (word : List ℕ) (number : ℕ) → number < 2 ^ 64
        → head_in word (number_line word number) ≡ Some number }
    ensures sound { (word line : List ℕ) (number : ℕ) → head_in word line ≡ Some number
        → (number < 2 ^ 64) × (line ≡ number_line word number) }
{}

/// The line of an upload is read back.
pub fn uploads_are_read()
    ensures complete { (upload : ℕ) (end : UploadEnd) → upload < 2 ^ 64 → IsUploadEnd end
        → upload_in (upload_line upload end) ≡ Some (upload, end) }
    ensures sound { (line : List ℕ) (upload : ℕ) (end : UploadEnd)
        → upload_in line ≡ Some (upload, end)
        → ((upload < 2 ^ 64) × IsUploadEnd end) × (line ≡ upload_line upload end) }
{}

/// The line of the totals is read back.
pub fn totals_are_read()
    ensures complete { (sums : Sums) → AreCounts sums → totals_in (totals_line sums) ≡ Some sums }
    ensures sound { (line : List ℕ) (sums : Sums) → totals_in line ≡ Some sums
        → AreCounts sums × (line ≡ totals_line sums) }
{}

/// The line of a validator is read back.
pub fn validators_are_read()
    ensures complete { (sum : ℕ × Sums) → IsValidatorSum sum
        → validator_in (validator_line sum) ≡ Some sum }
    ensures sound { (line : List ℕ) (sum : ℕ × Sums) → validator_in line ≡ Some sum
        → IsValidatorSum sum × (line ≡ validator_line sum) }
{}

/// The line of a token is read back.
pub fn tokens_are_read()
    ensures complete { (sum : Token × Sums) → IsTokenSum sum
        → token_line_in (token_line sum) ≡ Some sum }
    ensures sound { (line : List ℕ) (sum : Token × Sums) → token_line_in line ≡ Some sum
        → IsTokenSum sum × (line ≡ token_line sum) }
{}
