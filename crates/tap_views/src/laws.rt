//! What the grammar promises, and theorems about tokens, each the contract of a function that does
//! nothing, but for `round_trip`. Call it if a proof needs its theorem.

ghost use Rattle.std.specs.{Cmp.Lexicographic.slice_cmp, Ordering.nat_cmp};
ghost use Rattle.std.specs.Prelude.{◌≡◌, ◌++◌, ℕ, List, map, All, MatchResult};
ghost use Rattle.tap_views.specs.Encoding.{Encodes, Encodes2, fields_of, with_validator};
ghost use Rattle.tap_views.specs.{Faults.IsFault, Files.HasUniqueParse, Files.IsFile, Layout.Tap};
ghost use Rattle.tap_views.specs.{Layout.IsBatch, Token.Fits, Token.bytes_of};
ghost use Rattle.tap_views.specs.declared.encoder.{Tap2Fields.Tap2Fields, TapFields.TapFields};
ghost use Rattle.tap_views.specs.declared.{fault.LayoutFault.LayoutFault, token.Token.Token};

use crate::batch::Batch;
use crate::fault::LayoutFault;
use crate::token::Token;
use std::cmp::Ordering;

/// Bytes begin with at most one batch, so that no batch is the prefix of another.
pub fn one_batch(bytes: &[u8])
    ensures { (front front' rest rest' : List ℕ) (taps taps' : List Tap) → IsBatch front taps
        → bytes.now ≡ front ++ rest → IsBatch front' taps' → bytes.now ≡ front' ++ rest'
        → (taps ≡ taps') × (rest ≡ rest') × (front ≡ front') }
{}

/// Bytes have at most one first fault.
pub fn one_fault(bytes: &[u8])
    ensures { (fault fault' : LayoutFault) → IsFault bytes.now fault → IsFault bytes.now fault'
        → fault ≡ fault' }
{}

/// A file is read in at most one way: as batches, and a rest that begins with none.
pub fn unique_parse(file: &[u8])
    ensures { (batches batches' : List (List Tap)) (rest rest' : List ℕ)
        → IsFile file.now batches rest → IsFile file.now batches' rest' → (batches ≡ batches')
        × (rest ≡ rest') }
{}

/// Each upload is read as batches in at most one way.
pub fn unique_parse_each(uploads: &[Vec<u8>])
    ensures { All HasUniqueParse (map (λ upload. upload.items) uploads.now) }
{
    for upload in uploads {
        unique_parse(upload.as_slice());
    }
}

/// The round trip: of the bytes that `encode` or `encode_tap2` gave for some taps, and any bytes
/// after them, the first batch is these taps, and those bytes are left. It calls `Batch::first`.
pub fn round_trip<'a>(bytes: &'a [u8]) -> Result<(Batch<'a>, &'a [u8]), LayoutFault>
    ensures tap1 { (encoded trailing : List ℕ) (taps : List TapFields) → Encodes encoded taps
        → bytes.now ≡ encoded ++ trailing
        → MatchResult result (λ (batch, rest). (map fields_of batch ≡ taps)
        × (rest.now ≡ trailing)) (λ _. ⊥) }
    ensures tap2 { (encoded trailing : List ℕ) (validator : ℕ) (taps : List Tap2Fields)
        → Encodes2 encoded validator taps → bytes.now ≡ encoded ++ trailing
        → MatchResult result (λ (batch, rest).
        (map fields_of batch ≡ map (with_validator validator) taps)
        × (rest.now ≡ trailing)) (λ _. ⊥) }
{
    Batch::first(bytes)
}

/// Tokens are ordered by their bytes.
pub fn token_order(a: Token, b: Token) -> Ordering
    ensures { result ≡ slice_cmp nat_cmp (bytes_of a) (bytes_of b) }
{
    a.cmp(&b)
}

/// Tokens of 16 bytes that have the same bytes are the same token.
pub fn same_bytes_same_token()
    ensures { (a b : Token) → Fits a → Fits b → bytes_of a ≡ bytes_of b → a ≡ b }
{}
