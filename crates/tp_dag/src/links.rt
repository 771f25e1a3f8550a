//! The inputs of tasks. They are added to a task that was not dispatched, for which the caller makes room before, so that this cannot fail;
//! and a task that is done passes on to the tasks that read it.
ghost use Rattle.std.specs.{Prelude.{◌≡◌, ◌∷◌, [], map}, Vec.vec_capacity};
ghost use Rattle.tp_dag.specs.{Counted.entry_of, Kept.{Facts, Linked, MayLink, MayPassOn}};

use crate::entry::{Link, Task, is_done, one_if};
use crate::queues::Queues;
use crate::tasks::Tasks;

/// Lets task `target` read what task `source` makes.
#[tactic(auto, using(crate::proofs::Lemmas::link_places, crate::proofs::Lemmas::link_few, crate::proofs::Lemmas::inputs_few))]
pub(crate) fn add_link(tasks: &mut Tasks, links: &mut Vec<Link>, source: u32, target: u32)
    requires { MayLink target (source ∷ []) tasks.old links.old.items (vec_capacity links.old) }
    ensures linked { Linked target (source ∷ []) tasks.old tasks.new links.old.items links.new.items }
    ensures room { vec_capacity links.new ≡ vec_capacity links.old }
{
    let to = tasks.at(target);
    let from = tasks.at(source);
    tasks.set(
        target,
        to,
        Task {
            missing: to.missing + one_if(!is_done(from.stage)),
            inputs: to.inputs + 1,
            ..to
        },
    );
    tasks.set(
        source,
        from,
        Task {
            outputs: links.len() as u32 + 1,
            ..from
        },
    );
    links.push_reserved(Link {
        source,
        target,
        older: from.outputs,
    });
}

/// Lets task `target` read what these tasks make.
pub(crate) fn add_links(tasks: &mut Tasks, links: &mut Vec<Link>, sources: &[u32], target: u32)
    requires { MayLink target sources.now tasks.old links.old.items (vec_capacity links.old) }
    ensures { Linked target sources.now tasks.old tasks.new links.old.items links.new.items }
{
    for source in sources {
        add_link(tasks, links, *source, target);
    }
}

/// Takes an input from each task that reads the output of a done task at this place, or one that is older.
pub(crate) fn pass_on(
    tasks: &mut Tasks,
    links: &[Link],
    queues: &mut Queues,
    task: u32,
    outputs: u32,
)
    requires { MayPassOn task outputs tasks.old links.now }
    ensures facts { Facts tasks.new links.now }
    ensures same { map entry_of tasks.new ≡ map entry_of tasks.old }
{
    let mut left = outputs;
    while left != 0 {
        let link = links[left as usize - 1];
        let was = tasks.at(link.target);
        tasks.put(link.target, was, was.stage, was.missing - 1, was.outside);
        queues.push_if(was.class, link.target, was.missing == 1);
        left = link.older;
    }
}
