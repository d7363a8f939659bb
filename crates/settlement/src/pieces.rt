//! The taps of each part, in the pieces that several threads made of it.

ghost use Rattle.std.specs.Prelude.{◌≡◌, ◌<◌, ◌++◌, ℕ, All, flat_map, length, IfOk, OnOk, []};
ghost use Rattle.std.specs.Prelude.{map, slice_index_or};
ghost use Rattle.settlement.specs.inside.Taken.{ArePiecesAdded, in_part};

use std::alloc::{AllocError, Global};
use std::marker::Model;
use tap_parts::Parts;
use tap_views::TapFields;

/// The taps of one part. Dropping it frees them, while other parts stay.
#[derive(Drop)]
pub(crate) struct Pieces {
    /// A piece from each thread, in their order.
    list: Vec<Vec<TapFields>>,
}

impl Model for Pieces {
    ghost use Rattle.std.specs.Prelude.{List, flat_map};
    ghost use Rattle.tap_views.specs.declared.encoder.TapFields.{TapFields};

    ghost Value = { List TapFields };

    ghost view = { λ pieces. flat_map (λ piece. piece.items) pieces.list.items };
}

impl Pieces {
    fn new(alloc: Global) -> Self
        ensures { result ≡ [] }
    {
        Pieces {
            list: Vec::new(alloc),
        }
    }

    fn push(&mut self, piece: Vec<TapFields>) -> Result<(), AllocError>
        ensures { OnOk result (self.new ≡ self.old ++ piece.items) }
    {
        self.list.push(piece)?;
        Ok(())
    }

    pub(crate) fn as_slice(&self) -> &[Vec<TapFields>]
        ensures { flat_map (λ piece. piece.items) result.now ≡ self.now }
    {
        &self.list
    }
}

fn no_pieces(alloc: Global, parts: u32) -> Result<Vec<Pieces>, AllocError>
    ensures number { IfOk result (λ made. length made.items ≡ parts) }
    ensures empty { IfOk result (λ made. (part : ℕ) → part < parts
        → slice_index_or made.items part [] ≡ []) }
{
    let mut made = Vec::with_capacity(alloc, parts as usize)?;
    for _ in 0..parts {
        made.push(Pieces::new(alloc))?;
    }
    Ok(made)
}

fn join(parts: &mut [Pieces], lists: Vec<Vec<TapFields>>) -> Result<(), AllocError>
    requires { length lists.items ≡ length parts.old }
    ensures { OnOk result (ArePiecesAdded (map (λ list. list.items) lists.items) parts.old
        parts.new) }
{
    let mut position = 0usize;
    for piece in lists {
        parts[position].push(piece)?;
        position += 1;
    }
    Ok(())
}

/// The pieces of a part are in the order of the threads' lists.
pub(crate) fn pieces_of(
    alloc: Global,
    lists: Vec<Parts>,
    parts: u32,
) -> Result<Vec<Pieces>, AllocError>
    requires { All (λ list. length list ≡ parts) lists.items }
    ensures number { IfOk result (λ made. length made.items ≡ parts) }
    ensures each { IfOk result (λ made. (part : ℕ) → part < parts
        → slice_index_or made.items part [] ≡ in_part part lists.items) }
{
    let mut made = no_pieces(alloc, parts)?;
    for list in lists {
        join(&mut made, list.into_lists(alloc)?)?;
    }
    Ok(made)
}
