//! The statement of one token of a book.

ghost use Rattle.histories.specs.{Entry.own, Statement.IsStatement};
ghost use Rattle.std.specs.Prelude.{◌≡◌, ◌∷◌, [], ◌++◌, IfOk, OnOk};

use crate::book::ShardBook;
use histories::{Entry, Lines, Statement, totals_of_entries};
use std::alloc::Global;
use tap_views::{NoMemory, Token};

#[inline(always)]
#[tactic(auto, unfolding(histories::specs::Entry::own))]
fn push_if_own(list: &mut Vec<Entry>, entry: Entry, token: Token) -> Result<(), NoMemory>
    ensures { OnOk result (list.new.items ≡ list.old.items ++ own token (entry ∷ [])) }
{
    if entry.token == token {
        list.push(entry)?;
    }
    Ok(())
}

fn own_entries(alloc: Global, book: &ShardBook, token: Token) -> Result<Vec<Entry>, NoMemory>
    ensures { IfOk result (λ list. list.items ≡ own token book.now.entries) }
{
    let mut list = Vec::new(alloc);
    book.push_own(&mut list, token)?;
    Ok(list)
}

impl ShardBook {
    /// Appends the token's entries, in history order, in one scan of the history.
    pub fn push_own(&self, list: &mut Vec<Entry>, token: Token) -> Result<(), NoMemory>
        ensures { OnOk result (list.new.items ≡ list.old.items ++ own token self.now.entries) }
    {
        for i in 0..self.len() {
            push_if_own(list, self.entry(i), token)?;
        }
        Ok(())
    }

    /// The token's statement, in one scan of the history: entries in order, totals, last window.
    pub fn statement(&self, alloc: Global, token: &Token) -> Result<Statement, NoMemory>
        ensures { IfOk result (IsStatement self.now.table self.now.entries token.now) }
    {
        let token = *token;
        let entries = own_entries(alloc, self, token)?;
        let totals = totals_of_entries(&entries);
        let window = self.account_of(token).window(self.table());
        Ok(Statement {
            token,
            lines: Lines::of(entries),
            totals,
            window,
        })
    }
}
