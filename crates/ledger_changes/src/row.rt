//! A line of a ledger, as far as corrections look at it.

ghost use Rattle.std.specs.Prelude.{◌≡◌, IfOk};
ghost use Rattle.ledger_changes.specs.Rows.{is_same_charge, key_cmp};
ghost use Rattle.ledger_changes.specs.inside.Views.{charge_of, key_of, row_of};
ghost use Rattle.ledger_fields.specs.Lines.{row_of_fields};

use ledger_fields::RowFields;
use std::alloc::{AllocError, Global};
use std::cmp::Ordering;

/// What sets a line of a bill apart.
#[derive(Drop)]
pub(crate) struct LineKey {
    pub(crate) token: Vec<u8>,
    pub(crate) moment: Vec<u8>,
    pub(crate) validator: u32,
}

/// What is charged by a line.
#[derive(Drop)]
pub(crate) struct LineCharge {
    pub(crate) answer: Vec<u8>,
    pub(crate) cents: u32,
    pub(crate) reason: Vec<u8>,
}

#[derive(Drop)]
pub(crate) struct LedgerRow {
    pub(crate) key: LineKey,
    pub(crate) charge: LineCharge,
}

pub(crate) fn owned(alloc: Global, bytes: &[u8]) -> Result<Vec<u8>, AllocError>
    ensures { IfOk result (λ own. own.items ≡ bytes.now) }
{
    let mut own = Vec::new(alloc);
    own.extend_from_slice(bytes)?;
    Ok(own)
}

impl LineKey {
    /// By token, moment and validator, as in a bill.
    pub(crate) fn compare(&self, other: &LineKey) -> Ordering
        ensures { result ≡ key_cmp (key_of self.now) (key_of other.now) }
    {
        let validators = self.validator.cmp(&other.validator);
        let moments = self.moment.as_slice().cmp(other.moment.as_slice());
        let tokens = self.token.as_slice().cmp(other.token.as_slice());
        tokens.then(moments.then(validators))
    }
}

impl LineCharge {
    /// Whether nothing is charged otherwise.
    pub(crate) fn is_like(&self, other: &LineCharge) -> bool
        ensures { result ≡ is_same_charge (charge_of self.now) (charge_of other.now) }
    {
        let is_answer = self.answer.as_slice().cmp(other.answer.as_slice()).is_eq();
        let is_reason = self.reason.as_slice().cmp(other.reason.as_slice()).is_eq();
        is_answer && self.cents == other.cents && is_reason
    }
}

impl LedgerRow {
    pub(crate) fn of_fields(alloc: Global, fields: RowFields<'_>) -> Result<LedgerRow, AllocError>
        ensures { IfOk result (λ row. row_of row ≡ row_of_fields fields.entry) }
    {
        let token = owned(alloc, fields.token)?;
        let moment = owned(alloc, fields.moment)?;
        let answer = owned(alloc, fields.answer)?;
        let reason = owned(alloc, fields.reason)?;
        let key = LineKey {
            token,
            moment,
            validator: fields.validator,
        };
        let charge = LineCharge {
            answer,
            cents: fields.cents,
            reason,
        };
        Ok(LedgerRow { key, charge })
    }
}
