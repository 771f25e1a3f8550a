//! Each call of a pool's parts that can fail to allocate, once with enough memory. tools/dev limits refuse-tests makes
//! each allocation fail in turn; docs/measurements/out-of-memory.md has the results. Each kind of a core's steps is
//! refused memory in capi/tests/core/out_of_memory.c.

ghost use Rattle.std.specs.Prelude.{◌≡◌};

use pool_samples::{checked, print_table};
use std::alloc::{AllocError, Global};
use std::mem;
use std::test::Fail;
use tp_base::{History, Inputs, MessageId, NodeId, Refusal, Step, Table, TaskId};
use tp_core::{Core, Numbers, Reply};
use tp_graph::{Link, Routed, ValueBuilder, serial};
use tp_slots::{Command, RawSlots, SlabSlots, run_slots};
use tp_store::{Counts, Life, TaskItem, TaskStore};

/// A letter from node 0 to node 2 with a number.
#[derive(Clone, Copy, Debug, PartialEq, Eq)]
struct Letter(u32);

impl Routed for Letter {
    ghost sender = { λ _. 0 };

    ghost receiver = { λ _. 2 };

    ghost message = { λ l. l.0 };

    fn from(&self) -> NodeId {
        NodeId(0)
    }

    fn to(&self) -> NodeId {
        NodeId(2)
    }

    fn number(&self) -> MessageId {
        MessageId(self.0)
    }
}

type Store = TaskStore<RawSlots<TaskItem<u64>>, u64>;

/// One of each part that allocates.
#[derive(Drop)]
struct Parts {
    table: Table<u32>,
    history: History,
    link: Link<Letter>,
    store: Store,
    core: Core,
    builder: ValueBuilder,
}

/// A call that can fail to allocate.
#[derive(Clone, Copy)]
enum Call {
    Insert(u32),
    Reserve(u32),
    History(u32),
    Put(u32),
    Store(u32),
    Deliver(u32, u64),
    Step(Step),
    Run(Step),
    Room(u32, u32),
    Settle,
    Build(usize),
    Push(i64),
    Extend(&'static [i64]),
    /// Whether the value has these numbers.
    End(&'static [i64]),
    /// The following calls change no part.
    Slots,
    Print(&'static str),
}

/// It was done.
const DONE: Result<u32, Refusal> = Ok(0);

/// The numbers of the value that is built.
const BUILT: &[i64] = &[-3, i64::MAX, 5, i64::MIN];

/// What can be read of the parts.
#[derive(Clone, Copy, PartialEq, Eq)]
struct Content {
    table: [Option<u32>; 5],
    lengths: [usize; 5],
    letter: Option<Letter>,
    counts: Counts,
    lives: [Option<Life>; 7],
    numbers: Numbers,
    is_quiet: bool,
    built: [Option<i64>; 4],
}

impl Parts {
    fn new(alloc: Global) -> Self {
        Parts {
            table: Table::new(alloc),
            history: History::new(alloc),
            link: Link::new(alloc, NodeId(0), NodeId(2)),
            store: TaskStore::new(alloc),
            core: Core::new(alloc, 2),
            builder: ValueBuilder::new(alloc),
        }
    }

    /// Returns the result of a call: `Missing` if a moved value does not come back as it was.
    fn answer(&mut self, alloc: Global, call: Call) -> Result<u32, Refusal> {
        match call {
            Call::Insert(number) => done(self.table.insert(number, number)),
            Call::Reserve(count) => done(self.table.reserve(count)),
            Call::History(room) => reserve(&mut self.history, room),
            Call::Put(number) => put(&mut self.link, Letter(number)),
            Call::Store(task) => self.store.insert(TaskId(task), 1).map(|()| 0),
            Call::Deliver(task, value) => deliver(&mut self.store, TaskId(task), value),
            _ => self.answer_of_all(alloc, call),
        }
    }

    /// Returns the result of one of the other calls.
    fn answer_of_all(&mut self, alloc: Global, call: Call) -> Result<u32, Refusal> {
        match call {
            Call::Step(step) => taken(self.core.step(step)),
            Call::Run(step) => run_one(alloc, &mut self.core, step),
            Call::Room(steps, numbers) => self.core.reserve(steps, numbers, numbers).map(|()| 0),
            Call::Settle => self.core.settle().map(|(wave, _)| wave),
            Call::Build(count) => {
                self.builder = ValueBuilder::with_capacity(alloc, count)?;
                DONE
            }
            Call::Push(number) => done(self.builder.push(number)),
            Call::Extend(numbers) => done(self.builder.extend_from_slice(numbers)),
            Call::End(wanted) => self.end_of_builder(alloc, wanted),
            Call::Slots => run_slots_of_both(alloc),
            Call::Print(word) => Ok(count_of(text_of_table(alloc, word)?.len())),
            _ => Err(Refusal::BadSpec),
        }
    }

    /// Builds the value: `Missing` if it does not have these numbers. If that fails, the builder comes back.
    fn end_of_builder(&mut self, alloc: Global, wanted: &[i64]) -> Result<u32, Refusal> {
        match mem::replace(&mut self.builder, ValueBuilder::new(alloc)).into_value() {
            Ok(value) if value.as_slice() == wanted => DONE,
            Ok(_) => Err(Refusal::Missing),
            Err(failed) => {
                self.builder = failed.value;
                Err(Refusal::NoMemory)
            }
        }
    }

    fn content(&self) -> Content {
        Content {
            table: [0, 7, 8, 999_999, 4_000_000_000].map(|number| self.table.get(number)),
            lengths: [
                self.history.len(),
                self.link.len(),
                self.store.results().len(),
                self.core.steps().len(),
                self.builder.as_slice().len(),
            ],
            letter: self.link.front().copied(),
            counts: self.store.counts(),
            lives: [0, 1, 4, 6, 9, 300, 700].map(|task| self.store.life(TaskId(task))),
            numbers: self.core.numbers(),
            is_quiet: self.core.quiet(),
            built: [0, 1, 2, 3].map(|place| self.builder.as_slice().get(place).copied()),
        }
    }

    /// Returns the result of a call, which is repeated if it failed to allocate and changed nothing.
    fn tried<R: Eprint>(
        &mut self,
        rt: &R,
        alloc: Global,
        name: &str,
        call: Call,
    ) -> Result<u32, Refusal> {
        let before = self.content();
        let answer = self.answer(alloc, call);
        if answer != Err(Refusal::NoMemory) {
            return answer;
        }
        let _ = eprintln!(rt; "refused: {name}");
        if self.content() != before {
            return Err(Refusal::NoMemory);
        }
        self.answer(alloc, call)
    }
}

/// Reserves room in a history, in which these tests record nothing.
fn reserve(history: &mut History, room: u32) -> Result<u32, Refusal> {
    if !history.is_empty() {
        return Err(Refusal::Stranger);
    }
    done(history.reserve(room as usize))
}

fn done(made: Result<(), AllocError>) -> Result<u32, Refusal> {
    made?;
    DONE
}

fn put(link: &mut Link<Letter>, letter: Letter) -> Result<u32, Refusal> {
    if link.from() != NodeId(0) || link.to() != NodeId(2) {
        return Err(Refusal::NoNode);
    }
    match link.put(letter) {
        Ok(()) => DONE,
        Err((refusal, back)) if back == letter => Err(refusal),
        Err(_) => Err(Refusal::Missing),
    }
}

/// Delivers a value to slot 0 of a task that waits for two.
fn deliver(store: &mut Store, task: TaskId, value: u64) -> Result<u32, Refusal> {
    match store.deliver(task, 2, 0, 0, value) {
        Ok(_) => DONE,
        Err((refusal, back)) if back == value => Err(refusal),
        Err(_) => Err(Refusal::Missing),
    }
}

fn taken(answer: Result<Reply, Refusal>) -> Result<u32, Refusal> {
    match answer? {
        Reply::Plain => DONE,
        _ => Err(Refusal::Missing),
    }
}

fn run_one(alloc: Global, core: &mut Core, step: Step) -> Result<u32, Refusal> {
    let answers = core.run(alloc, &[step])?;
    match answers.first() {
        Some(answer) => taken(*answer),
        None => Err(Refusal::Missing),
    }
}

/// Returns the number of replies of both kinds of slots.
fn run_slots_of_both(alloc: Global) -> Result<u32, Refusal> {
    let commands = [
        Command::Take(7),
        Command::PushReady(0, 1),
        Command::PopReady,
    ];
    let in_slab = run_slots::<SlabSlots<u64>>(alloc, &commands)?;
    let in_raw = run_slots::<RawSlots<u64>>(alloc, &commands)?;
    Ok(count_of(in_slab.len()).saturating_add(count_of(in_raw.len())))
}

/// Returns what is printed of the values of a pool, each computed on one thread.
fn text_of_table(alloc: Global, word: &str) -> Result<Vec<u8>, Refusal> {
    let graph = checked(word)?;
    let results = serial(alloc, graph)?;
    print_table(alloc, graph, &results)
}

fn count_of(length: usize) -> u32 {
    u32::try_from(length).unwrap_or(u32::MAX)
}

/// A call with its name, and the number that it must return.
type Row = (&'static str, Call, u32);

/// Returns the first call whose result differs from its row, with the result.
fn first_wrong<R: Eprint>(
    rt: &R,
    alloc: Global,
    parts: &mut Parts,
    rows: &[Row],
) -> Option<(&'static str, Result<u32, Refusal>)> {
    for (name, call, wanted) in rows {
        let answer = parts.tried(rt, alloc, name, *call);
        if answer != Ok(*wanted) {
            return Some((*name, answer));
        }
    }
    None
}

#[test]
fn memory_that_is_refused_changes_nothing(rt: HostRuntime) -> Result<(), Fail> {
    let one = Inputs::new(1).ok_or("one input")?;
    let insert = Step::Insert(NodeId(1), TaskId(3), one);
    let rows: [Row; 29] = [
        ("Table::insert of a near number", Call::Insert(7), 0),
        ("Table::insert into its page", Call::Insert(8), 0),
        ("Table::insert into another page", Call::Insert(999_999), 0),
        ("Table::insert, far", Call::Insert(4_000_000_000), 0),
        ("Table::reserve", Call::Reserve(300), 0),
        ("History::reserve", Call::History(1), 0),
        ("History::reserve of pieces", Call::History(5_000), 0),
        ("Link::put", Call::Put(0), 0),
        ("Link::put again", Call::Put(1), 0),
        ("TaskStore::deliver", Call::Deliver(9, 30), 0),
        ("TaskStore::insert", Call::Store(300), 0),
        ("TaskStore::deliver again", Call::Deliver(700, 31), 0),
        ("Core::step of insert", Call::Step(insert), 0),
        ("Core::run", Call::Run(Step::Supply(TaskId(3))), 0),
        ("Core::step of begin", Call::Step(Step::Begin(TaskId(3))), 0),
        ("Core::step of done", Call::Step(Step::Done(TaskId(3))), 0),
        ("Core::reserve", Call::Room(1_220, 200), 0),
        ("Core::step of ready", Call::Step(Step::Ready(NodeId(0))), 0),
        ("Core::step of ready", Call::Step(Step::Ready(NodeId(1))), 0),
        // its two waves follow on those numbers: the first that is started is wave 1
        ("Core::settle", Call::Settle, 1),
        ("ValueBuilder::push", Call::Push(8), 0),
        // the new room has no number yet
        ("ValueBuilder::with_capacity", Call::Build(1), 0),
        ("ValueBuilder::push into its room", Call::Push(-3), 0),
        ("ValueBuilder::extend", Call::Extend(&[i64::MAX, 5]), 0),
        ("ValueBuilder::push again", Call::Push(i64::MIN), 0),
        ("ValueBuilder::into_value", Call::End(BUILT), 0),
        // three replies of each body
        ("run_slots", Call::Slots, 6),
        // 66 and the end of its line
        ("serial, print_table", Call::Print("reduce:4:0"), 3),
        ("serial, print_table", Call::Print("product:2:2:0"), 14),
    ];
    let mut parts = Parts::new(rt.alloc());
    let wrong = first_wrong(&rt, rt.alloc(), &mut parts, rows.as_slice());
    assert_eq!(rt; wrong, None);
    Ok(())
}
