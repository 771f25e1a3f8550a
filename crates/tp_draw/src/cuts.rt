//! The waves of a run and its ends, with the labels of these and of the reopenings.

use crate::layout::TOP;
use crate::lengths::{Tenths, area_of, at, push_circle, push_text};
use crate::scene::Scene;
use crate::waves::{Cut, End, Seam};
use std::alloc::AllocError;

/// The style of a wave: the two whose equal sums detected termination are green.
fn class_of(scene: &Scene, cut: &Cut) -> &'static str {
    let ended = cut.gives[0];
    for end in &scene.waves.ends {
        if end.since <= ended && ended <= end.judged {
            return "wave tells";
        }
    }
    "wave"
}

/// Where a wave crosses the lane of a node: at the event at which the node gave.
fn crossing(scene: &Scene, cut: &Cut, node: u32) -> u64 {
    scene.middle(cut.gives.get(node as usize).copied().unwrap_or(0))
}

/// The line of a wave, with rings where the nodes gave if there is room for them.
pub(crate) fn push_cut(out: &mut String, scene: &Scene, cut: &Cut) -> Result<(), AllocError> {
    let class = class_of(scene, cut);
    write!(out, r#"<polyline class="{class}" points=""#)?;
    for node in 0..scene.nodes {
        let x = crossing(scene, cut, node);
        let top = at(x, scene.top(node).saturating_sub(80));
        let foot = at(x, scene.foot(node).saturating_add(80));
        write!(out, " {top} {foot}")?;
    }
    writeln!(out, r#""><title>{cut}</title></polyline>"#)?;
    if scene.is_detailed() {
        for node in 0..scene.nodes {
            let middle = at(crossing(scene, cut, node), scene.lane(node).middle().y);
            push_circle(out, format_args!("{class} ring"), middle, "3")?;
        }
    }
    Ok(())
}

/// A line through all lanes from this height on.
pub(crate) fn push_upright(
    out: &mut String,
    scene: &Scene,
    class: &str,
    x: u64,
    top: u64,
) -> Result<(), AllocError> {
    let (top, foot) = (at(x, top), Tenths(scene.below(220)));
    writeln!(out, r#"<path class="{class}" d="M{top}V{foot}"/>"#)
}

/// The line at which termination was detected, and the ground since the wave before the last.
pub(crate) fn push_end(out: &mut String, scene: &Scene, end: &End) -> Result<(), AllocError> {
    let (from, to) = (scene.middle(end.since), scene.middle(end.judged));
    let height = scene.below(280).saturating_sub(TOP);
    let ground = area_of(at(from, TOP - 140), to.saturating_sub(from), height);
    writeln!(out, r#"<rect class="over"{ground}/>"#)?;
    push_upright(out, scene, "end", to, TOP - 140)
}

/// Whether there is this much room for a label before the next of its row.
fn has_room(room: u64, x: u64, next: Option<u64>) -> bool {
    next.map_or(true, |next| room <= next.saturating_sub(x))
}

/// The labels of waves over their lines at node 0, in two rows: to the left of the line, or to the right if there is no
/// room on the left. A label is left out if there is no room before the next of its row.
pub(crate) fn push_cut_labels(
    out: &mut String,
    scene: &Scene,
    cuts: &[Cut],
) -> Result<(), AllocError> {
    let room = if scene.is_summed() { 2_300 } else { 1_800 };
    for (k, cut) in cuts.iter().enumerate() {
        let x = crossing(scene, cut, 0);
        let (side, needed) = if x < room {
            ("right", 2 * room)
        } else {
            ("left", room)
        };
        let next = cuts.get(k.saturating_add(2));
        if has_room(needed, x, next.map(|next| crossing(scene, next, 0))) {
            let class = class_of(scene, cut);
            let y = if k % 2 == 0 { TOP - 200 } else { TOP - 350 };
            push_text(out, format_args!("{class} {side}"), at(x, y), *cut)?;
        }
    }
    Ok(())
}

/// The labels of ends, each if there is room for it before the next.
pub(crate) fn push_end_labels(
    out: &mut String,
    scene: &Scene,
    ends: &[End],
) -> Result<(), AllocError> {
    for (k, end) in ends.iter().enumerate() {
        let x = scene.middle(end.judged);
        let next = ends.get(k.saturating_add(1));
        if has_room(600, x, next.map(|next| scene.middle(next.judged))) {
            let (wave, place) = (end.wave, at(x, scene.below(340)));
            push_text(out, "told", place, format_args!("ended {wave}"))?;
        }
    }
    Ok(())
}

/// The labels of reopenings, each if there is room for it before the next.
pub(crate) fn push_seam_labels(
    out: &mut String,
    scene: &Scene,
    seams: &[Seam],
) -> Result<(), AllocError> {
    for (k, seam) in seams.iter().enumerate() {
        let x = scene.edge(seam.at);
        let next = seams.get(k.saturating_add(1));
        if has_room(900, x, next.map(|next| scene.edge(next.at))) {
            let (x, generation) = (Tenths(x.saturating_add(40)), seam.generation.0);
            writeln!(
                out,
                r#"<text class="seam" x="{x}" y="98">generation {generation}</text>"#
            )?;
        }
    }
    Ok(())
}
