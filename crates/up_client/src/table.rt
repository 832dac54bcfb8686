//! Who answers from a table.
ghost use Rattle.std.specs.Prelude.{◌≡◌, IfOk};
ghost use Rattle.up_lists.specs.Calls.{no_call_made};
ghost use Rattle.up_client.specs.Tables.{AnswersFrom, IsReplyIn};

use crate::ask::{Ask, Failed};
use crate::copying::copied;
use std::alloc::{AllocError, Global};
use std::marker::Model;
use up_lists::{Calls, Items};
use up_wire::{Reply, Request};

/// Who answers from a fixed table, with what is told there of a request, and with `NotExist` of any other. Some of its calls
/// may fail. Of several rows with one request the first one tells.
#[derive(Drop)]
pub struct TableAsk {
    rows: Items<(Request, Reply)>,
    calls: Calls,
}

impl Model for TableAsk {
    ghost use Rattle.up_client.specs.Tables.{Table};

    ghost Value = { Table };

    ghost view = { λ table. record {
      rows = table.rows;
      calls = table.calls;
    } };
}

impl TableAsk {
    /// A table of these rows, which was asked nothing yet. The calls with these numbers, from 0, fail.
    pub fn new(rows: Items<(Request, Reply)>, fails: Items<u64>) -> TableAsk
        ensures { result ≡ record { rows = rows; calls = no_call_made fails } }
    {
        TableAsk {
            rows,
            calls: Calls::new(fails),
        }
    }
}

impl Ask for TableAsk {
    ghost answers = { AnswersFrom };

    ghost faults = { λ table. table.calls.faults };

    ghost tied = { λ _ _. Unit {0} };

    fn ask(&mut self, alloc: Global, request: &Request) -> Result<Reply, Failed> {
        if self.calls.next_fails() {
            return Err(Failed);
        }
        match reply_in(alloc, self.rows.as_slice(), request) {
            Ok(reply) => Ok(reply),
            Err(AllocError) => Ok(Reply::OutOfMemory),
        }
    }

    ghost same = { λ _. tt };

    ghost joined = { λ _ _ _ _ _. tt };
}

// The reply of a table, in memory of its own.
fn reply_in(
    alloc: Global,
    rows: &[(Request, Reply)],
    request: &Request,
) -> Result<Reply, AllocError>
    ensures { IfOk result (λ reply. IsReplyIn rows.now request.now reply) }
{
    for row in rows {
        if row.0 == *request {
            return copied(alloc, &row.1);
        }
    }
    Ok(Reply::NotExist)
}
