//! The replies that a caller collects, with room taken beforehand.

ghost use Rattle.std.specs.Prelude.{◌≡◌, ◌+◌, ◌-◌, ◌<◌, ◌≤◌, [], ◌∷◌, ◌++◌, length, slice_get};
ghost use Rattle.std.specs.Prelude.{Some, OnOk, OnErr};

use account_rule::Reply;
use std::alloc::Global;
use std::marker::Model;
use tap_views::NoMemory;

/// A list of replies, and for how many more it has room. Contracts see both.
#[derive(Drop)]
pub struct Replies {
    replies: Vec<Reply>,
}

impl Model for Replies {
    ghost use Rattle.std.specs.Prelude.{◌-◌, vec_len, vec_capacity};
    ghost use Rattle.histories.specs.Replies.{RepliesView};

    ghost Value = { RepliesView };

    ghost view = { λ r. record {
      items = r.replies.items;
      spare = vec_capacity r.replies - vec_len r.replies;
    } };
}

impl Replies {
    /// No replies.
    pub fn new(alloc: Global) -> Self
        ensures { result.items ≡ [] }
    {
        Replies {
            replies: Vec::new(alloc),
        }
    }

    /// Takes room for `n` replies more. If an allocation fails, the replies stay as they were.
    pub fn reserve(&mut self, n: u32) -> Result<(), NoMemory>
        ensures items { self.new.items ≡ self.old.items }
        ensures ok { OnOk result (n ≤ self.new.spare) }
        ensures spare { self.old.spare ≤ self.new.spare }

        // It fails only if that room was missing, and then the room stays as it was.
        ensures full { OnErr result (self.old.spare < n) }
        ensures err { OnErr result (self.new ≡ self.old) }
    {
        self.replies.reserve(n as usize)?;
        Ok(())
    }

    /// For how many more replies there is room.
    pub fn spare(&self) -> u64
        ensures { result ≡ self.now.spare }
    {
        (self.replies.capacity() - self.replies.len()) as u64
    }

    /// How many replies there are.
    pub fn len(&self) -> u64
        ensures { result ≡ length self.now.items }
    {
        self.replies.len() as u64
    }

    /// The reply at index `i`.
    pub fn get(&self, i: u64) -> Reply
        requires { i < length self.now.items }
        ensures { slice_get self.now.items i ≡ Some result }
    {
        self.replies[i as usize]
    }

    /// Drops all replies, and the room stays.
    pub fn clear(&mut self)
        ensures items { self.new.items ≡ [] }
        ensures spare { self.old.spare ≤ self.new.spare }
    {
        self.replies.clear();
    }

    /// Appends a reply in the room that is there.
    pub fn push(&mut self, reply: Reply)
        requires { 0 < self.old.spare }
        ensures items { self.new.items ≡ self.old.items ++ reply ∷ [] }
        ensures spare { self.new.spare + 1 ≡ self.old.spare }
    {
        self.replies.push_reserved(reply);
    }
}
