//! The names of a pool's ledgers, which are types.
ghost use Rattle.std.specs.Prelude.{[]};
ghost use Rattle.tp_board.specs.Names.{PoolNames, pending_name, under_parts};

use std::marker::PhantomData;
use std::sync::ledger::Ledger;

/// Names the ledgers of one pool, and its number of nodes. The caller that opens a pool chooses them.
pub trait Ledgers {
    ghost names: { PoolNames };
}

/// Names the ledgers of a pool in the call that opens it.
pub type Brand = std::marker::Brand;

impl Ledgers for Brand {
    ghost names = { record { nodes = 0; pending = []; sent = 0; received = 0; done = 0; under = 0; judged = 0 } };
}

/// The ledger of the pending number of one node: one part.
pub struct Pending<K: Ledgers, const NODE: u32>(PhantomData<K>);

/// The ledger of the messages sent: a part for each node.
pub struct Sent<K: Ledgers>(PhantomData<K>);

/// The ledger of the messages received: a part for each node.
pub struct Received<K: Ledgers>(PhantomData<K>);

/// The ledger of the tasks that were done: a part for each node.
pub struct Done<K: Ledgers>(PhantomData<K>);

/// The ledger of the messages in flight: a part for each link, and one for the board.
pub struct Under<K: Ledgers>(PhantomData<K>);

/// The ledger of the detected termination: one part.
pub struct Judged<K: Ledgers>(PhantomData<K>);

impl<K: Ledgers, const NODE: u32> Ledger for Pending<K, NODE> {
    ghost name = { pending_name K.names NODE };

    ghost parts = { 1 };
}

impl<K: Ledgers> Ledger for Sent<K> {
    ghost name = { K.names.sent };

    ghost parts = { K.names.nodes };
}

impl<K: Ledgers> Ledger for Received<K> {
    ghost name = { K.names.received };

    ghost parts = { K.names.nodes };
}

impl<K: Ledgers> Ledger for Done<K> {
    ghost name = { K.names.done };

    ghost parts = { K.names.nodes };
}

impl<K: Ledgers> Ledger for Under<K> {
    ghost name = { K.names.under };

    ghost parts = { under_parts K.names.nodes };
}

impl<K: Ledgers> Ledger for Judged<K> {
    ghost name = { K.names.judged };

    ghost parts = { 1 };
}
