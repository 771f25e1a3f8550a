//! The marks of a run, one for each thing: tasks, messages and pauses.

use crate::layout::Detail;
use crate::lengths::{area_of, at, number_of, push_circle, push_curve, push_text};
use crate::messages::Message;
use crate::pauses::Pause;
use crate::scene::Scene;
use crate::tracks::Bar;
use itoa::Buffer;
use std::alloc::AllocError;
use tp_base::NodeId;

/// The bar of a task, at least a pixel wide, with the task's number if that fits: 7 pixels a digit. The bar of one that was
/// not done goes to the end of the lanes.
pub(crate) fn push_bar(out: &mut String, scene: &Scene, bar: &Bar) -> Result<(), AllocError> {
    let (node, task, first) = (bar.node.0, bar.task.0, number_of(bar.from));
    let (class, end) = match bar.to {
        Some(to) => ("", scene.reach(to)),
        None => (" open", scene.right()),
    };
    let from = scene.middle(bar.from);
    let width = end.saturating_sub(from).max(10);
    let ground = area_of(at(from, scene.track(node, bar.track)), width, scene.bar());
    write!(
        out,
        r#"<rect class="n{node}{class}"{ground} rx="3"><title>task {task}, from {first}"#
    )?;
    match bar.to {
        Some(to) => write!(out, " to {}", number_of(to))?,
        None => out.push_str(", not done")?,
    }
    out.push_str("</title></rect>\n")?;
    let digits = Buffer::new().format(task).len() as u64;
    if scene.is_detailed() && digits.saturating_mul(70).saturating_add(40) <= ground.width {
        let middle = ground.middle();
        let place = at(middle.x, middle.y.saturating_add(40));
        push_text(out, "number", place, task)?;
    }
    Ok(())
}

/// White ground while nothing was pending. If sums are drawn, it has to be at least two pixels wide for each node.
pub(crate) fn push_pause(out: &mut String, scene: &Scene, pause: &Pause) -> Result<(), AllocError> {
    let (node, from) = (pause.node.0, scene.middle(pause.from));
    let width = scene.reach(pause.to).saturating_sub(from);
    if scene.is_summed() && width < 20 * u64::from(scene.nodes) {
        return Ok(());
    }
    let ground = area_of(at(from, scene.top(node)), width, scene.height(node));
    writeln!(out, r#"<rect class="idle"{ground}/>"#)
}

/// From which edge of one lane to which edge of another a message goes.
pub(crate) fn ends_of(scene: &Scene, from: NodeId, to: NodeId) -> (u64, u64) {
    if from.0 < to.0 {
        (scene.foot(from.0), scene.top(to.0))
    } else {
        (scene.top(from.0), scene.foot(to.0))
    }
}

/// A message that was received: fainter the more there are, and with a dot where it was sent if there are few events;
/// or a stub of one that was not.
pub(crate) fn push_message(
    out: &mut String,
    scene: &Scene,
    message: &Message,
) -> Result<(), AllocError> {
    let sent = scene.middle(message.sent);
    let Some(received) = message.received else {
        let from = at(sent, scene.foot(message.from.0));
        return writeln!(
            out,
            r#"<path class="lost" d="M{from}l10,14"><title>{message}</title></path>"#
        );
    };
    let is_fine = scene.detail() == Detail::Fine;
    let look = match (scene.messages.arrows.len() > 150, is_fine) {
        (true, _) => r#"class="arrow many""#,
        (false, true) => r#"class="arrow""#,
        (false, false) => r#"class="arrow some""#,
    };
    let (start, end) = ends_of(scene, message.from, message.to);
    let (from, to) = (at(sent, start), at(scene.middle(received), end));
    push_curve(out, look, from, to, *message)?;
    if is_fine {
        push_circle(out, "dot", from, "2.2")?;
    }
    Ok(())
}
