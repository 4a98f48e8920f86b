//! The end of a shared vault: what its sessions received, against its history.
ghost use Rattle.std.specs.Prelude.{◌≡◌};
ghost use Rattle.tg_share.specs.declared.locked.TheConstants.{PARTS};
ghost use Rattle.tg_share.specs.Promise.Closing.{HandsBack, HandsGraph, IsClosed};

use crate::locked::Locked;
use crate::session::{Ended, Shared};
use std::sync::ledger::Ledger;
use tg_audit::{SeatLog, Settled, agreed_counts, settle_with_graph};
use tg_graph::Graph;
use tg_vault::courses_have_the_headline;

/// What `close` returns.
#[derive(Drop)]
pub enum Closed<L: Ledger> {
    /// The logs were settled with the history. `counted` says that as many ended sessions were passed in as were given:
    /// the history then has as many entries as the logs have exchanges, whatever `settled` is.
    Done {
        settled: Settled,
        counted: bool,
    },
    /// There was no memory for the list of logs; the call may be made again.
    NoRoom {
        shared: Shared<L>,
        ended: Vec<Ended<L>>,
    },
}

impl<L: Ledger> Shared<L> {
    /// Takes the vault out of the lock, and settles its history with the logs of the ended sessions.
    pub fn close(self, ended: Vec<Ended<L>>) -> Closed<L>
        requires { L.parts ≡ PARTS }
        ensures { IsClosed ended.items result }
    {
        let (closed, logs) = self.close_with_logs(ended);
        drop(logs);
        closed
    }

    /// As `close`, and returns the logs if they agree, which `close` drops: so they can be dropped later.
    pub fn close_with_logs(self, ended: Vec<Ended<L>>) -> (Closed<L>, Vec<SeatLog>)
        requires { L.parts ≡ PARTS }
        ensures closed { IsClosed ended.items result.0 }
        ensures logs { HandsBack ended.items result.0 result.1.items }
    {
        let (closed, logs, graph) = self.close_with_graph(ended);
        drop(graph);
        (closed, logs)
    }

    /// As `close_with_logs`, and returns the graph that the history leaves if they agree: so a rebase can go on from
    /// it.
    pub fn close_with_graph(self, ended: Vec<Ended<L>>) -> (Closed<L>, Vec<SeatLog>, Option<Graph>)
        requires { L.parts ≡ PARTS }
        ensures closed { IsClosed ended.items result.0 }
        ensures logs { HandsBack ended.items result.0 result.1.items }
        ensures graph { HandsGraph result.0 result.2 }
    {
        let none = Vec::new(self.alloc);
        let Ok(mut logs) = Vec::with_capacity(self.alloc, ended.len()) else {
            let closed = Closed::NoRoom {
                shared: self,
                ended,
            };
            return (closed, none, None);
        };
        let Shared { locked, alloc } = self;
        let inner = locked.into_inner();
        let Locked {
            vault,
            mut entries,
            mut rest,
            given,
        } = inner;
        let counted = ended.len() as u64 == given;
        for one in ended {
            let Ended {
                log,
                actor: _,
                share,
            } = one;
            rest.merge(share);
            let Ok(()) = logs.push(log) else {
                unreachable!()
            };
        }
        entries.audit(&mut rest);
        courses_have_the_headline();
        agreed_counts();
        let (settled, logs, graph) = settle_with_graph(alloc, vault, logs);
        (Closed::Done { settled, counted }, logs, graph)
    }
}
