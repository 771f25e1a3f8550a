//! The table of a grid, which makes each call of its graph a look-up.
ghost use Rattle.pool_kernels.specs.{Events.grid_events, Grids.{AreSizes, IsNarrow}, RunFaults.{HasNoFault, IsTableFault}};
ghost use Rattle.pool_kernels.specs.Tables.{AreSpots, IsOutput, IsSpot};
ghost use Rattle.std.specs.Prelude.{◌≡◌, ◌≤◌, ◌<◌, ◌*◌, ◌/◌, ◌%◌, ◌^◌, suc, IfErr, IfOk, OnOk};
ghost use Rattle.tp_base.specs.declared.limits.TheConstants.{MAX_STEPS};

use crate::fault::TableFault;
use crate::kinds::{Kinds, Output, Shape, Spot, kinds_of, spots_of};
use crate::relation::Relation;
use std::alloc::Global;
use tp_base::{MAX_STEPS, TaskId};

/// The most tasks that can be within the limit of events, since each takes at least 3.
const MOST_TASKS: u32 = MAX_STEPS / 3;

/// A grid of tasks over a relation, with the inputs and feeds of each task computed once. A graph borrows it, so that
/// each of its calls is a look-up.
#[derive(Drop)]
pub struct FeedTable<P: Relation> {
    relation: P,
    width: u32,
    steps: u32,
    spots: Vec<Spot>,
    outputs: Vec<Output>,
    ghost sizes: { AreSizes width steps },
    ghost few_tasks: { steps * width < 2 ^ 20 },
    ghost narrow: { IsNarrow (P.relation relation width) width steps },
    ghost few_events: { grid_events (P.relation relation width) width steps ≤ MAX_STEPS },
    ghost noted: { AreSpots (P.relation relation width) width steps (steps * width) spots.items outputs.items },
}

impl<P: Relation> FeedTable<P> {
    /// Returns the table of a grid of `steps` rows of `width` columns. Refused with `Empty` if there are no columns or
    /// no rows, with `TooManyInputs` if a task has more than 16, with `TooManyEvents` if the tasks take more than
    /// 1,048,576 events at one node, and with `NoMemory` if an allocation fails first. Each task takes at least 3 events,
    /// so more than 349,525 tasks are refused at once. Otherwise it takes O(width * width) time for each row of one
    /// period ([`Relation::period`]), and memory for each task and for each feed of those rows.
    #[tactic(auto, using(crate::proofs::Events::few_sides, crate::proofs::Events::too_many))]
    pub fn new(alloc: Global, relation: P, width: u32, steps: u32) -> Result<Self, TableFault>
        ensures made { IfOk result (λ table. (table.relation ≡ relation) × (table.width ≡ width) × (table.steps ≡ steps)) }
        ensures no_fault { OnOk result (HasNoFault (P.relation relation width) width steps) }
        ensures refused { IfErr result (IsTableFault (P.relation relation width) width steps) }
    {
        if width == 0 || steps == 0 {
            return Err(TableFault::Empty);
        }
        if u64::from(steps) * u64::from(width) > u64::from(MOST_TASKS) {
            return Err(TableFault::TooManyEvents);
        }
        let period = relation.period(width, steps);
        let shape = Shape {
            width,
            steps,
            period,
        };
        let kinds = match kinds_of(alloc, &relation, shape) {
            Ok(kinds) => kinds,
            Err(fault) => return Err(fault),
        };
        let spots = match spots_of(alloc, &relation, &kinds, shape) {
            Ok(spots) => spots,
            Err(fault) => return Err(fault),
        };
        let Kinds { outputs, .. } = kinds;
        Ok(FeedTable {
            relation,
            width,
            steps,
            spots,
            outputs,
        })
    }

    /// Returns the relation.
    pub fn relation(&self) -> P
        ensures { result ≡ self.now.relation }
    {
        self.relation
    }

    /// Returns the number of columns of a row.
    pub fn width(&self) -> u32
        ensures same { result ≡ self.now.width }
        ensures some { (1 ≤ result) × (result < 2 ^ 20) }
    {
        self.width
    }

    /// Returns the number of rows.
    pub fn steps(&self) -> u32
        ensures same { result ≡ self.now.steps }
        ensures some { (1 ≤ result) × (result * self.now.width < 2 ^ 20) }
    {
        self.steps
    }

    /// Returns the entry of a task.
    pub(crate) fn spot(&self, task: TaskId) -> Spot
        requires { task.0 < self.now.steps * self.now.width }
        ensures { IsSpot (P.relation self.now.relation self.now.width) self.now.width self.now.steps
            self.now.outputs.items task.0 result }
    {
        self.spots[task.0 as usize]
    }

    /// Returns an output of a task: a column of the next row, and the slot there.
    #[tactic(auto, using(crate::proofs::Tables::output_there))]
    pub(crate) fn output(&self, task: TaskId, spot: Spot, turn: u32) -> Output
        requires known { task.0 < self.now.steps * self.now.width }
        requires right { IsSpot (P.relation self.now.relation self.now.width) self.now.width self.now.steps
            self.now.outputs.items task.0 spot }
        requires within { turn < spot.feeds }
        ensures same { IsOutput (P.relation self.now.relation self.now.width) self.now.width (suc (task.0 / self.now.width))
            (task.0 % self.now.width) turn result }
        ensures inside { result.column < self.now.width }
    {
        self.outputs[spot.start + turn as usize]
    }
}
