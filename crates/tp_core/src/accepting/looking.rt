//! Looking at a core: what runs or is open at a node, and who may make a step. Nothing here changes the core.
ghost use Rattle.std.specs.{Option.option_map, Prelude.◌≡◌};
ghost use Rattle.tp_core.specs.Makers.{runs_tasks};

use super::Core;
use crate::life::Life;
use crate::posted::{Posted, Stage};
use tp_base::{ActionId, MessageId, NodeId, Step, TaskId};

/// Who makes a step, at the node of the step.
#[derive(Clone, Copy, Debug, PartialEq, Eq)]
pub enum Maker {
    /// A running task.
    Task(TaskId),
    /// An open action.
    Action(ActionId),
    /// A message that was received there and has not ended.
    Message(MessageId),
    /// The opening of the node.
    Opening,
    /// A thread of this node. It makes no work, and begins and finishes tasks.
    Thread(NodeId),
}

impl Core {
    ghost use Rattle.tp_core.specs.{Accepted.world_of, Makers.{home_if_known, is_maker, is_running_at, node_of_work}};
    ghost use Rattle.tp_core.specs.World.{Opening, Named};
    ghost use Rattle.tp_core.specs.{Left.{IsNextLeft, home_and_life}, World.{OfMessage, is_open, is_under_way}};
    ghost use Rattle.tp_wave.specs.{Generations.present, Sums.is_ended};

    /// Returns whether termination of the present generation was detected.
    pub fn is_ended(&self) -> bool
        ensures { result ≡ is_ended self.now.nodes (present self.now.steps) }
    {
        self.wave.is_over()
    }

    /// Returns the home and the life of a task, if it was inserted in this generation.
    pub fn task(&self, task: TaskId) -> Option<(NodeId, Life)>
        ensures { result ≡ home_and_life task.0 (world_of self.now) }
    {
        match self.tasks.get(task.0) {
            Some(held) => Some((held.home, held.life)),
            None => None,
        }
    }

    /// Returns the task with the lowest number from `from` on and below `end` that is not done, if there is one. It looks up
    /// each number, so it takes time in proportion to their number.
    pub fn next_left(&self, from: u32, end: u32) -> Option<TaskId>
        ensures { IsNextLeft from end (world_of self.now) result }
    {
        for number in from..end {
            if let Some(held) = self.tasks.get(number) {
                if held.life != Life::Done {
                    return Some(TaskId(number));
                }
            }
        }
        None
    }

    /// Returns whether a message is in flight to a node.
    pub fn is_in_flight(&self, node: NodeId, message: MessageId) -> bool
        ensures { result ≡ is_under_way message.0 node.0 (world_of self.now) }
    {
        self.messages.get(message.0) == Some(Posted::new(node, Stage::UnderWay))
    }

    /// Returns the home of a task, if it was inserted in this generation.
    pub fn home(&self, task: TaskId) -> Option<NodeId>
        ensures { option_map (λ i. i.0) result ≡ home_if_known task.0 (world_of self.now) }
    {
        match self.tasks.get(task.0) {
            Some(held) => Some(held.home),
            None => None,
        }
    }

    /// Returns whether a task runs at a node.
    pub fn is_running(&self, node: NodeId, task: TaskId) -> bool
        ensures { result ≡ is_running_at node.0 task.0 (world_of self.now) }
    {
        match self.tasks.get(task.0) {
            Some(held) => held.life == Life::Running && held.home.0 == node.0,
            None => false,
        }
    }

    /// Returns whether a named action is open at a node.
    pub fn is_open(&self, node: NodeId, action: ActionId) -> bool
        ensures { result ≡ is_open node.0 (Named action.0) (world_of self.now) }
    {
        match self.named.get(action.0) {
            Some(nodes) => nodes.contains(node),
            None => false,
        }
    }

    /// Returns whether a message was received at a node and has not ended.
    pub fn is_received(&self, node: NodeId, message: MessageId) -> bool
        ensures { result ≡ is_open node.0 (OfMessage message.0) (world_of self.now) }
    {
        self.messages.get(message.0) == Some(Posted::new(node, Stage::Received))
    }

    /// Returns whether the opening of a node is open.
    pub fn is_opening(&self, node: NodeId) -> bool
        ensures { result ≡ is_open node.0 Opening (world_of self.now) }
    {
        self.opening.contains(node)
    }

    /// Returns the node at which a step makes work, or begins or finishes a task. There is none for the other steps, or if
    /// there is no such task.
    #[inline(always)]
    pub fn node_of_work(&self, step: Step) -> Option<NodeId>
        ensures { option_map (λ i. i.0) result ≡ node_of_work step (world_of self.now) }
    {
        match step {
            Step::Insert(node, _, _) | Step::ActionOpen(node, _) | Step::Send(node, _, _, _) => {
                Some(node)
            }
            Step::Supply(task) | Step::Begin(task) | Step::Done(task) => self.home(task),
            _ => None,
        }
    }

    /// Returns whether the maker may make the step: it runs or is open at the node of the step, or is a thread of that
    /// node and the step begins or finishes a task. It is false for a step whose node or task does not exist, and for
    /// every step that is not `Insert`, `Supply`, `Begin`, `Done`, `ActionOpen` or `Send`.
    #[inline(always)]
    pub fn is_maker(&self, maker: Maker, step: Step) -> bool
        ensures { result ≡ is_maker maker step (world_of self.now) }
    {
        // (the node is looked up in each arm, so that the maker is matched once)
        match maker {
            Maker::Task(task) => match self.node_of_work(step) {
                Some(node) => self.is_running(node, task),
                None => false,
            },
            Maker::Action(action) => match self.node_of_work(step) {
                Some(node) => self.is_open(node, action),
                None => false,
            },
            Maker::Message(message) => match self.node_of_work(step) {
                Some(node) => self.is_received(node, message),
                None => false,
            },
            Maker::Opening => match self.node_of_work(step) {
                Some(node) => self.is_opening(node),
                None => false,
            },
            Maker::Thread(own) => match self.node_of_work(step) {
                Some(node) => runs_tasks(step) && own.0 == node.0,
                None => false,
            },
        }
    }
}

// Returns whether the step begins or finishes a task.
#[inline(always)]
fn runs_tasks(step: Step) -> bool
    ensures { result ≡ runs_tasks step }
{
    match step {
        Step::Begin(_) | Step::Done(_) => true,
        _ => false,
    }
}
