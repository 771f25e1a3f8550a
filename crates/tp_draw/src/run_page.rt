//! The picture of a run as an SVG: headline, lanes, what is in them, waves and axis.

use crate::cuts::{
    push_cut, push_cut_labels, push_end, push_end_labels, push_seam_labels, push_upright,
};
use crate::layout::TOP;
use crate::lengths::{Tenths, at, number_of, push_text};
use crate::marks::{push_bar, push_message, push_pause};
use crate::run_style::{LEGEND, LEGEND_OF_SUMS, STYLE, STYLE_OF_SUMS};
use crate::scene::Scene;
use crate::sums::{push_hill, push_ribbon};
use std::alloc::{AllocError, Global};
use std::fmt;

/// The beginning of an SVG of a scene, of this width and height.
fn push_svg<L: fmt::Display + Drop>(
    out: &mut String,
    scene: &Scene,
    width: L,
    height: L,
) -> Result<(), AllocError> {
    let (right, foot) = (Tenths(scene.width()), Tenths(scene.page_height()));
    write!(
        out,
        r#"<svg xmlns="http://www.w3.org/2000/svg" width="{width}" height="{height}""#
    )?;
    writeln!(out, r#" viewBox="0 0 {right} {foot}">"#)
}

/// The size of the page, and how things look on it.
fn push_head(out: &mut String, scene: &Scene) -> Result<(), AllocError> {
    let (width, height) = (Tenths(scene.width()), Tenths(scene.page_height()));
    push_svg(out, scene, width, height)?;
    out.push_str(STYLE)?;
    if scene.is_summed() {
        out.push_str(STYLE_OF_SUMS)?;
    }
    Ok(())
}

/// The plural's ending of a noun.
fn ending(count: u64) -> &'static str {
    if count == 1 { "" } else { "s" }
}

/// The numbers of the run, whether its termination was detected, and the legend.
fn push_headline(out: &mut String, scene: &Scene) -> Result<(), AllocError> {
    let (tasks, messages) = (&scene.tracks.bars, &scene.messages.arrows);
    let (tasks, messages) = (tasks.len() as u64, messages.len() as u64);
    let (task, message) = (ending(tasks), ending(messages));
    out.push_str(r#"<text class="head" x="74" y="28">"#)?;
    write!(out, "{tasks} task{task}, {messages} message{message}")?;
    let missing = scene.messages.under_way.len();
    if missing > 0 {
        write!(out, " and {missing} not received")?;
    }
    let (nodes, events) = (u64::from(scene.nodes), u64::from(scene.events));
    let (node, event) = (ending(nodes), ending(events));
    writeln!(out, ", {nodes} node{node}, {events} event{event}</text>")?;
    match scene.waves.ended {
        Some(wave) => writeln!(
            out,
            r#"<text class="seen" x="74" y="47">the end is judged: nothing was left when wave {wave} ended</text>"#
        )?,
        None => out.push_str("<text x=\"74\" y=\"47\">no end is judged</text>\n")?,
    }
    out.push_str(if scene.is_summed() {
        LEGEND_OF_SUMS
    } else {
        LEGEND
    })
}

/// The lanes, and where nothing is pending in them.
fn push_lanes(out: &mut String, scene: &Scene) -> Result<(), AllocError> {
    for node in 0..scene.nodes {
        let lane = scene.lane(node);
        writeln!(out, r#"<rect class="p{node}"{lane} rx="4"/>"#)?;
    }
    for pause in &scene.pauses.ended {
        push_pause(out, scene, pause)?;
    }
    for node in 0..scene.nodes {
        let lane = scene.lane(node);
        let y = Tenths(lane.middle().y.saturating_add(50));
        writeln!(out, r#"<rect class="frame"{lane} rx="4"/>"#)?;
        writeln!(
            out,
            r#"<text class="name n{node}" x="62" y="{y}">node {node}</text>"#
        )?;
    }
    Ok(())
}

/// The messages that were received, one by one or as ribbons, and the first 100 of those that were not.
fn push_messages(out: &mut String, scene: &Scene) -> Result<(), AllocError> {
    if scene.is_summed() {
        for ribbon in &scene.bands.ribbons {
            push_ribbon(out, scene, ribbon)?;
        }
    } else {
        for message in &scene.messages.arrows {
            push_message(out, scene, message)?;
        }
    }
    for message in scene.messages.under_way.iter().take(100) {
        push_message(out, scene, message)?;
    }
    Ok(())
}

/// The tasks, one by one or as hills.
fn push_tasks(out: &mut String, scene: &Scene) -> Result<(), AllocError> {
    if scene.is_summed() {
        for node in 0..scene.nodes {
            push_hill(out, scene, node)?;
        }
        return Ok(());
    }
    for bars in [&scene.tracks.bars, &scene.tracks.running] {
        for bar in bars {
            push_bar(out, scene, bar)?;
        }
    }
    Ok(())
}

/// The last 50 of a list if sums are drawn, else all.
fn recent<'a, M>(scene: &Scene, marks: &'a [M]) -> &'a [M] {
    if scene.is_summed() {
        &marks[marks.len().saturating_sub(50)..]
    } else {
        marks
    }
}

/// The waves, the ends and the reopenings, with their labels.
fn push_waves(out: &mut String, scene: &Scene) -> Result<(), AllocError> {
    let cuts = recent(scene, &scene.waves.cuts);
    let ends = recent(scene, &scene.waves.ends);
    let seams = recent(scene, &scene.waves.seams);
    for end in ends {
        push_end(out, scene, end)?;
    }
    for cut in cuts {
        push_cut(out, scene, cut)?;
    }
    push_cut_labels(out, scene, cuts)?;
    for seam in seams {
        push_upright(out, scene, "seam", scene.edge(seam.at), TOP - 560)?;
    }
    push_end_labels(out, scene, ends)?;
    push_seam_labels(out, scene, seams)
}

/// The number of events between two ticks of the axis, which are 60 pixels apart or more.
fn unit(scene: &Scene) -> u32 {
    match scene.events {
        0..=2_500 => match scene.step() {
            0..=11 => 100,
            12..=29 => 50,
            30..=59 => 20,
            60..=119 => 10,
            _ => 5,
        },
        2_501..=25_000 => 1_000,
        25_001..=250_000 => 10_000,
        _ => 50_000,
    }
}

/// The axis, which counts events.
fn push_axis(out: &mut String, scene: &Scene) -> Result<(), AllocError> {
    let unit = unit(scene).max(1);
    let (line, foot) = (scene.below(440), scene.below(610));
    for tick in 1..=scene.events / unit {
        let event = tick.saturating_mul(unit).saturating_sub(1);
        let x = scene.middle(event);
        write!(out, r#"<path class="axis" d="M{}v5"/>"#, at(x, line))?;
        push_text(out, "scale", at(x, foot), number_of(event))?;
    }
    let (right, line, foot) = (scene.right(), Tenths(line), Tenths(scene.below(480)));
    writeln!(
        out,
        r#"<path class="axis" d="M74,{line}H{}"/>"#,
        Tenths(right)
    )?;
    writeln!(out, r#"<text class="unit" x="62" y="{foot}">event</text>"#)
}

/// The mark of a fault: a line at the end of the lanes, with a label.
fn push_fault(out: &mut String, scene: &Scene, label: &str) -> Result<(), AllocError> {
    push_upright(out, scene, "fault", scene.right(), TOP - 560)?;
    let (x, label) = (Tenths(scene.width().saturating_sub(440)), label.trim_end());
    writeln!(
        out,
        r#"<text class="fault" x="{x}" y="47">fault: {label}</text>"#
    )
}

/// Returns the picture of a scene, as an SVG of version 1.1. It allocates only the text. Refused if an allocation
/// fails.
pub fn svg(alloc: Global, scene: &Scene) -> Result<String, AllocError> {
    picture_of(alloc, scene, None, None)
}

/// The picture of a scene, this many pixels wide and as high as that requires, or in its own size. If there is a fault after
/// it, a red line is at its end. The label of the line is that of an audit: printable ASCII characters without a meaning in
/// an SVG.
pub(crate) fn picture_of(
    alloc: Global,
    scene: &Scene,
    fault: Option<&str>,
    pixels: Option<u32>,
) -> Result<String, AllocError> {
    let mut out = String::new(alloc);
    if let Some(pixels) = pixels {
        let pixels = u64::from(pixels);
        let height = pixels.saturating_mul(scene.page_height()) / scene.width().max(1);
        push_svg(&mut out, scene, pixels, height)?;
    }
    push_head(&mut out, scene)?;
    push_headline(&mut out, scene)?;
    push_lanes(&mut out, scene)?;
    push_messages(&mut out, scene)?;
    push_tasks(&mut out, scene)?;
    push_waves(&mut out, scene)?;
    push_axis(&mut out, scene)?;
    if let Some(label) = fault {
        push_fault(&mut out, scene, label)?;
    }
    out.push_str("</svg>\n")?;
    if pixels.is_some() {
        out.push_str("</svg>\n")?;
    }
    Ok(out)
}
