//! Taking the ten steps of a pool, which change its tasks, actions and messages. Each makes its checks, then reserves
//! room, then takes effect. A pool of tasks takes `insert`, `begin` and `done` for each task, so these are inlined.
ghost use Rattle.std.specs.Prelude.{◌≡◌};
ghost use Rattle.tp_core.specs.Pool.{lacking as lacking_inputs};

use super::{Core, are_full, is_full};
use crate::held::Held;
use crate::life::Life;
use crate::node_set::NodeSet;
use crate::posted::{Posted, Stage};
use crate::reply::Reply;
use tp_base::{ActionId, Generation, Inputs, MessageId, NodeId, Refusal, Step, TaskId};

impl Core {
    ghost use Rattle.tp_core.specs.Accepted.{AcceptsOrRefuses};

    #[inline(always)]
    pub(super) fn insert(
        &mut self,
        home: NodeId,
        task: TaskId,
        inputs: Inputs,
    ) -> Result<Reply, Refusal>
        ensures { AcceptsOrRefuses self.old (Step.Insert home task inputs) result self.new }
    {
        if home.0 >= self.nodes {
            return Err(Refusal::NoNode);
        }
        if self.tasks.get(task.0).is_some() {
            return Err(Refusal::TaskKnown);
        }
        if self.numbers[home.0 as usize].pending == 0 {
            return Err(Refusal::Inactive);
        }
        self.steps.make_room(is_full(self.left))?;
        let life = lacking(inputs.get());
        self.tasks.insert(task.0, Held { home, life })?;
        self.numbers[home.0 as usize].pending += 1;
        self.left += 1;
        self.steps.push(Step::Insert(home, task, inputs));
        Ok(Reply::Plain)
    }

    pub(super) fn supply(&mut self, task: TaskId) -> Result<Reply, Refusal>
        ensures { AcceptsOrRefuses self.old (Step.Supply task) result self.new }
    {
        let Some(held) = self.tasks.get(task.0) else {
            return Err(Refusal::NoTask);
        };
        let Life::Waiting(missing) = held.life else {
            return Err(Refusal::WrongLife);
        };
        self.steps.make_room(false)?;
        let life = lacking(missing - 1);
        self.tasks.set(task.0, Held { life, ..held });
        self.steps.push(Step::Supply(task));
        Ok(Reply::Plain)
    }

    #[inline(always)]
    pub(super) fn begin(&mut self, task: TaskId) -> Result<Reply, Refusal>
        ensures { AcceptsOrRefuses self.old (Step.Begin task) result self.new }
    {
        let Some(held) = self.tasks.get(task.0) else {
            return Err(Refusal::NoTask);
        };
        let Life::Ready = held.life else {
            return Err(Refusal::WrongLife);
        };
        self.steps.make_room(false)?;
        let life = Life::Running;
        self.tasks.set(task.0, Held { life, ..held });
        self.steps.push(Step::Begin(task));
        Ok(Reply::Plain)
    }

    #[inline(always)]
    pub(super) fn done(&mut self, task: TaskId) -> Result<Reply, Refusal>
        ensures { AcceptsOrRefuses self.old (Step.Done task) result self.new }
    {
        let Some(held) = self.tasks.get(task.0) else {
            return Err(Refusal::NoTask);
        };
        let Life::Running = held.life else {
            return Err(Refusal::WrongLife);
        };
        self.steps.make_room(false)?;
        let life = Life::Done;
        self.tasks.set(task.0, Held { life, ..held });
        self.numbers[held.home.0 as usize].pending -= 1;
        self.left -= 1;
        self.steps.push(Step::Done(task));
        Ok(Reply::Plain)
    }

    pub(super) fn open(&mut self, node: NodeId, action: ActionId) -> Result<Reply, Refusal>
        ensures { AcceptsOrRefuses self.old (Step.ActionOpen node action) result self.new }
    {
        if node.0 >= self.nodes {
            return Err(Refusal::NoNode);
        }
        let nodes = self.named.get(action.0).unwrap_or(NodeSet::new());
        if nodes.has(node) {
            return Err(Refusal::ActionKnown);
        }
        if self.numbers[node.0 as usize].pending == 0 {
            return Err(Refusal::Inactive);
        }
        self.steps.make_room(is_full(self.left))?;
        self.named.insert(action.0, nodes.with(node))?;
        self.numbers[node.0 as usize].pending += 1;
        self.left += 1;
        self.steps.push(Step::ActionOpen(node, action));
        Ok(Reply::Plain)
    }

    pub(super) fn close(&mut self, node: NodeId, action: ActionId) -> Result<Reply, Refusal>
        ensures { AcceptsOrRefuses self.old (Step.ActionClose node action) result self.new }
    {
        if node.0 >= self.nodes {
            return Err(Refusal::NoNode);
        }
        let Some(nodes) = self.named.get(action.0) else {
            return Err(Refusal::NoAction);
        };
        if !nodes.has(node) {
            return Err(Refusal::NoAction);
        }
        self.steps.make_room(false)?;
        self.named.set(action.0, nodes.without(node));
        self.numbers[node.0 as usize].pending -= 1;
        self.left -= 1;
        self.steps.push(Step::ActionClose(node, action));
        Ok(Reply::Plain)
    }

    pub(super) fn ready(&mut self, node: NodeId) -> Result<Reply, Refusal>
        ensures { AcceptsOrRefuses self.old (Step.Ready node) result self.new }
    {
        if node.0 >= self.nodes {
            return Err(Refusal::NoNode);
        }
        if !self.opening.has(node) {
            return Err(Refusal::NoAction);
        }
        self.steps.make_room(false)?;
        self.opening = self.opening.without(node);
        self.numbers[node.0 as usize].pending -= 1;
        self.left -= 1;
        self.steps.push(Step::Ready(node));
        Ok(Reply::Plain)
    }

    pub(super) fn send(
        &mut self,
        from: NodeId,
        to: NodeId,
        message: MessageId,
        generation: Generation,
    ) -> Result<Reply, Refusal>
        ensures { AcceptsOrRefuses self.old (Step.Send from to message generation) result self.new }
    {
        if from.0 >= self.nodes || to.0 >= self.nodes {
            return Err(Refusal::NoNode);
        }
        if generation.0 != self.generation {
            return Err(Refusal::Stranger);
        }
        if from.0 == to.0 {
            return Err(Refusal::SameNode);
        }
        if self.messages.get(message.0).is_some() {
            return Err(Refusal::MessageKnown);
        }
        if self.numbers[from.0 as usize].pending == 0 {
            return Err(Refusal::Inactive);
        }
        let limit = are_full(self.numbers[from.0 as usize].sent, self.under);
        self.steps.make_room(limit)?;
        let under_way = Posted::new(to, Stage::UnderWay);
        self.messages.insert(message.0, under_way)?;
        self.numbers[from.0 as usize].sent += 1;
        self.under += 1;
        self.steps.push(Step::Send(from, to, message, generation));
        Ok(Reply::Plain)
    }

    pub(super) fn recv(
        &mut self,
        node: NodeId,
        message: MessageId,
        generation: Generation,
    ) -> Result<Reply, Refusal>
        ensures { AcceptsOrRefuses self.old (Step.Recv node message generation) result self.new }
    {
        if node.0 >= self.nodes {
            return Err(Refusal::NoNode);
        }
        if generation.0 != self.generation {
            return Err(Refusal::Stranger);
        }
        let under_way = Posted::new(node, Stage::UnderWay);
        if self.messages.get(message.0) != Some(under_way) {
            return Err(Refusal::NoMessage);
        }
        let limit = are_full(self.numbers[node.0 as usize].received, self.left);
        self.steps.make_room(limit)?;
        let received = Posted::new(node, Stage::Received);
        self.messages.set(message.0, received);
        let numbers = &mut self.numbers[node.0 as usize];
        numbers.pending += 1;
        numbers.received += 1;
        self.left += 1;
        self.under -= 1;
        self.steps.push(Step::Recv(node, message, generation));
        Ok(Reply::Plain)
    }

    pub(super) fn end(
        &mut self,
        node: NodeId,
        message: MessageId,
        generation: Generation,
    ) -> Result<Reply, Refusal>
        ensures { AcceptsOrRefuses self.old (Step.MessageEnd node message generation) result self.new }
    {
        if node.0 >= self.nodes {
            return Err(Refusal::NoNode);
        }
        if generation.0 != self.generation {
            return Err(Refusal::Stranger);
        }
        let received = Posted::new(node, Stage::Received);
        if self.messages.get(message.0) != Some(received) {
            return Err(Refusal::NoAction);
        }
        self.steps.make_room(false)?;
        let ended = Posted::new(node, Stage::Ended);
        self.messages.set(message.0, ended);
        self.numbers[node.0 as usize].pending -= 1;
        self.left -= 1;
        self.steps.push(Step::MessageEnd(node, message, generation));
        Ok(Reply::Plain)
    }
}

// Returns the life of a task that lacks this many inputs.
fn lacking(count: u8) -> Life
    ensures { result ≡ lacking_inputs count }
{
    match count {
        0 => Life::Ready,
        _ => Life::Waiting(count),
    }
}
