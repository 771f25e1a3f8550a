//! Runs of commands, whose replies do not depend on places, so that two kinds of slots can be compared.
ghost use Rattle.std.specs.Prelude.{◌≡◌, ℕ, ◌<◌, IfOk, IfErr};
ghost use Rattle.tp_slots.specs.Commands.{State, start, reply_of, after, replies_of};

use crate::slots::{Place, Slots};
use std::alloc::Global;
use std::collections::BTreeMap;
use tp_base::{CLASSES, Refusal};

/// A command. Items are numbered in the order of their `Take` commands, from 0 and including refused ones.
#[derive(Clone, Copy, Debug, PartialEq, Eq)]
pub enum Command {
    /// Takes an item in.
    Take(u64),
    /// Puts the item of this number at the end of the queue of a class.
    PushReady(usize, u8),
    /// Removes the next item from its queue.
    PopReady,
    /// Reads the item of this number.
    Get(usize),
    /// Removes the item of this number from the slots.
    GiveBack(usize),
}

/// The reply to a command.
#[derive(Clone, Copy, Debug, PartialEq, Eq)]
pub enum Reply {
    /// The number of the item that was taken in.
    Taken(usize),
    /// `StoreFull` if 65,536 items are held, `NoTask` if the item is not held, `WrongLife` if it is in a queue,
    /// `BadSpec` if the class is above 3.
    Refused(Refusal),
    /// The command was carried out.
    Plain,
    /// The number of the item that was next, if there was one.
    Next(Option<usize>),
    /// The item.
    Item(u64),
}

// The state of the item of a number: its place, and whether that is in a queue.
#[derive(Clone, Copy)]
enum Standing {
    Gone,
    Held(Place, bool),
}

// The state of each number, and the number of the item at each place.
#[derive(Drop)]
struct Names {
    standings: Vec<Standing>,
    numbers: BTreeMap<Place, usize>,
}

impl Names {
    ghost use Rattle.std.specs.{BTreeMap.get, Ordering.nat_cmp, Prelude.{[], Some, None}};
    ghost use Rattle.tp_slots.specs.{Content.nothing_held, Names.{name_at, Represents}};

    fn new(alloc: Global) -> Self
        ensures { Represents nothing_held result start }
    {
        Names {
            standings: Vec::new(alloc),
            numbers: BTreeMap::new(alloc),
        }
    }

    fn find(&self, k: usize) -> Standing
        ensures { result ≡ name_at self.now.standings.items k }
    {
        match self.standings.get(k) {
            Some(name) => *name,
            None => Standing::Gone,
        }
    }

    fn step<S: Slots<u64>>(&mut self, slots: &mut S, command: Command) -> Result<Reply, Refusal>
        requires { (s : State) × Represents (S.content slots.old) self.old s }
        ensures reply { (s : State) → Represents (S.content slots.old) self.old s
            → IfOk result (λ r. (r ≡ reply_of command s) × Represents (S.content slots.new) self.new (after command s)) }
        ensures memory { IfErr result (λ e. e ≡ Refusal.NoMemory) }
    {
        match command {
            Command::Take(value) => self.take(slots, value),
            Command::PushReady(k, class) => Ok(self.push_ready(slots, k, class)),
            Command::PopReady => Ok(self.pop_ready(slots)),
            Command::Get(k) => Ok(self.get(slots, k)),
            Command::GiveBack(k) => Ok(self.give_back(slots, k)),
        }
    }

    fn take<S: Slots<u64>>(&mut self, slots: &mut S, value: u64) -> Result<Reply, Refusal>
        requires { (s : State) × Represents (S.content slots.old) self.old s }
        ensures reply { (s : State) → Represents (S.content slots.old) self.old s
            → IfOk result (λ r. (r ≡ reply_of (Command.Take value) s)
            × Represents (S.content slots.new) self.new (after (Command.Take value) s)) }
        ensures memory { IfErr result (λ e. e ≡ Refusal.NoMemory) }
    {
        let number = self.standings.len();
        self.standings.reserve(1)?;
        match slots.take(value) {
            Ok(place) => {
                let _ = self.numbers.insert(place, number)?;
                self.standings.push_reserved(Standing::Held(place, false));
                Ok(Reply::Taken(number))
            }
            Err((Refusal::StoreFull, _)) => {
                self.standings.push_reserved(Standing::Gone);
                Ok(Reply::Refused(Refusal::StoreFull))
            }
            Err(_) => Err(Refusal::NoMemory),
        }
    }

    fn push_ready<S: Slots<u64>>(&mut self, slots: &mut S, k: usize, class: u8) -> Reply
        requires { (s : State) × Represents (S.content slots.old) self.old s }
        ensures { (s : State) → Represents (S.content slots.old) self.old s → (result ≡ reply_of (Command.PushReady k class) s)
            × Represents (S.content slots.new) self.new (after (Command.PushReady k class) s) }
    {
        match self.find(k) {
            Standing::Gone => Reply::Refused(Refusal::NoTask),
            Standing::Held(_, true) => Reply::Refused(Refusal::WrongLife),
            Standing::Held(place, false) => {
                if class >= CLASSES {
                    return Reply::Refused(Refusal::BadSpec);
                }
                slots.push_ready(place, class);
                self.standings[k] = Standing::Held(place, true);
                Reply::Plain
            }
        }
    }

    fn pop_ready<S: Slots<u64>>(&mut self, slots: &mut S) -> Reply
        requires { (s : State) × Represents (S.content slots.old) self.old s }
        ensures { (s : State) → Represents (S.content slots.old) self.old s → (result ≡ reply_of Command.PopReady s)
            × Represents (S.content slots.new) self.new (after Command.PopReady s) }
    {
        let Some(place) = slots.pop_ready() else {
            return Reply::Next(None);
        };
        let Some(number) = self.numbers.get(&place) else {
            unreachable!()
        };
        let k = *number;
        self.standings[k] = Standing::Held(place, false);
        Reply::Next(Some(k))
    }

    fn get<S: Slots<u64>>(&self, slots: &S, k: usize) -> Reply
        requires { (s : State) × Represents (S.content slots.now) self.now s }
        ensures { (s : State) → Represents (S.content slots.now) self.now s → result ≡ reply_of (Command.Get k) s }
    {
        match self.find(k) {
            Standing::Gone => Reply::Refused(Refusal::NoTask),
            Standing::Held(place, _) => Reply::Item(*slots.get(place)),
        }
    }

    fn give_back<S: Slots<u64>>(&mut self, slots: &mut S, k: usize) -> Reply
        requires { (s : State) × Represents (S.content slots.old) self.old s }
        ensures { (s : State) → Represents (S.content slots.old) self.old s → (result ≡ reply_of (Command.GiveBack k) s)
            × Represents (S.content slots.new) self.new (after (Command.GiveBack k) s) }
    {
        match self.find(k) {
            Standing::Gone => Reply::Refused(Refusal::NoTask),
            Standing::Held(_, true) => Reply::Refused(Refusal::WrongLife),
            Standing::Held(place, false) => {
                self.standings[k] = Standing::Gone;
                Reply::Item(slots.give_back(place))
            }
        }
    }
}

/// Runs commands in order on empty slots, and returns a reply for each. The replies are the same for every kind of
/// slots.
///
/// Refused with `NoMemory` if an allocation fails, which ends the run.
pub fn run_slots<S: Slots<u64> + Drop>(
    alloc: Global,
    commands: &[Command],
) -> Result<Vec<Reply>, Refusal>
    ensures replies { IfOk result (λ replies. replies.items ≡ replies_of commands.now start) }
    ensures memory { IfErr result (λ e. e ≡ Refusal.NoMemory) }
{
    let mut slots = S::new(alloc);
    let mut names = Names::new(alloc);
    let mut replies = Vec::new(alloc);
    for command in commands {
        let reply = names.step(&mut slots, *command)?;
        replies.push(reply)?;
    }
    Ok(replies)
}
