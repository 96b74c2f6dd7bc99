// A pool as what does the commands of one connection.

use kl1_command::{Command, Performed};
use kl1_pool::{Pool, PoolIds};
use kl1_pool_history::History;
use kl1_session::CommandHandler;
use std::sync::Wait;

/// A pool, and what was done for one connection.
#[derive(Drop)]
pub struct PoolHandler<'p, 't, R: Wait, K: PoolIds> {
    pub rt: &'p R,
    pub pool: &'p Pool<'t, R, K>,
    pub history: History<K, K>,
}

impl<'p, 't, R: Wait, K: PoolIds> CommandHandler for PoolHandler<'p, 't, R, K> {
    ghost use Rattle.kl1_pool_tickets.specs.Counts.{Counts};

    ghost accounts = { λ handler. K.accounts };

    ghost done = { λ handler. handler.history.done };

    ghost Beside = { Counts };

    ghost beside = { λ handler. handler.history.begun };

    fn act(&mut self, account: usize, command: &Command) -> Performed {
        self.history.act(self.rt, self.pool, account, command)
    }
}
