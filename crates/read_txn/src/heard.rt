//! The answers of shards.
ghost use Rattle.std.specs.Prelude.{◌≡◌, ◌==◌};
ghost use Rattle.std.specs.List.{list_any};
ghost use Rattle.messages.specs.Rounds as rounds;

use logical_time::Node;
use messages::{RowAt, RowNow, RowsAt, RowsNow};
use std::marker::Model;

/// What a shard answered in the first round.
#[derive(Drop)]
pub(crate) struct ShardNow {
    from: Node,
    rows: RowsNow,
}

impl Model for ShardNow {
    ghost use Rattle.messages.specs.Session.{HeardNow};

    ghost Value = { HeardNow };

    ghost view = { λ h. record { from = h.from; rows = h.rows } };
}

impl ShardNow {
    pub(crate) fn new(from: Node, rows: RowsNow) -> ShardNow
        ensures { result ≡ record { from = from; rows = rows } }
    {
        ShardNow { from, rows }
    }

    pub(crate) fn from(&self) -> Node
        ensures { result ≡ self.now.from }
    {
        self.from
    }

    pub(crate) fn rows(&self) -> &[RowNow]
        ensures { result.now ≡ self.now.rows }
    {
        self.rows.as_slice()
    }

    /// The rows, handed out.
    pub(crate) fn into_rows(self) -> RowsNow
        ensures { result ≡ self.rows }
    {
        let ShardNow { from: _, rows } = self;
        rows
    }
}

/// What a shard answered in the second round.
#[derive(Drop)]
pub(crate) struct ShardAt {
    from: Node,
    rows: RowsAt,
}

impl Model for ShardAt {
    ghost use Rattle.messages.specs.Session.{HeardAt};

    ghost Value = { HeardAt };

    ghost view = { λ h. record { from = h.from; rows = h.rows } };
}

impl ShardAt {
    pub(crate) fn new(from: Node, rows: RowsAt) -> ShardAt
        ensures { result ≡ record { from = from; rows = rows } }
    {
        ShardAt { from, rows }
    }

    pub(crate) fn from(&self) -> Node
        ensures { result ≡ self.now.from }
    {
        self.from
    }

    pub(crate) fn rows(&self) -> &[RowAt]
        ensures { result.now ≡ self.now.rows }
    {
        self.rows.as_slice()
    }

    /// The rows, handed out.
    pub(crate) fn into_rows(self) -> RowsAt
        ensures { result ≡ self.rows }
    {
        let ShardAt { from: _, rows } = self;
        rows
    }
}

fn is_among(nodes: &[Node], node: Node) -> bool
    ensures { result ≡ list_any (λ n. n == node) nodes.now }
{
    nodes.iter().any(|n| *n == node)
}

/// Whether the shard has answered.
fn was_heard(heard: &[ShardNow], node: Node) -> bool
    ensures { result ≡ rounds.was_heard heard.now node }
{
    heard.iter().any(|h| h.from() == node)
}

/// Whether the shard is asked and hasn't answered.
pub(crate) fn is_missing(asked: &[Node], heard: &[ShardNow], node: Node) -> bool
    ensures { result ≡ rounds.is_missing asked.now heard.now node }
{
    is_among(asked, node) && !was_heard(heard, node)
}

/// Whether all asked shards have answered.
pub(crate) fn all_heard(asked: &[Node], heard: &[ShardNow]) -> bool
    ensures { result ≡ rounds.all_heard asked.now heard.now }
{
    asked.iter().all(|node| was_heard(heard, *node))
}

/// Whether the shard has answered in the second round.
pub(crate) fn was_heard_at(heard: &[ShardAt], node: Node) -> bool
    ensures { result ≡ rounds.was_heard_at heard.now node }
{
    heard.iter().any(|h| h.from() == node)
}
