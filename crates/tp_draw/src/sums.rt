//! What is drawn of a long trace instead of its tasks and messages: hills of load, and ribbons.

use crate::columns::COLUMNS;
use crate::lengths::{Tenths, at, push_curve};
use crate::marks::ends_of;
use crate::ribbons::Ribbon;
use crate::scene::Scene;
use std::alloc::AllocError;

/// The height of the hill of a node in a column: 40 pixels if at every event of it as many tasks run as ever ran there
/// at once.
fn rise(scene: &Scene, node: u32, column: usize) -> u64 {
    let first = (node as usize).saturating_mul(COLUMNS);
    let load = scene.loads.get(first.saturating_add(column));
    let load = u128::from(load.copied().unwrap_or(0));
    let most = u128::from(scene.rows_of(node).max(1)) * u128::from(scene.events.max(1));
    (load * 600_000 / most.max(1)).min(400) as u64
}

/// How many tasks of a node run, as a hill in its lane.
pub(crate) fn push_hill(out: &mut String, scene: &Scene, node: u32) -> Result<(), AllocError> {
    let foot = scene.foot(node);
    let ground = Tenths(foot);
    write!(out, r#"<path class="hill n{node}" d="M74.0,{ground}"#)?;
    for column in 0..COLUMNS {
        let level = foot.saturating_sub(rise(scene, node, column)) / 10;
        write!(out, "V{level}h1")?;
    }
    let rows = scene.rows_of(node);
    writeln!(
        out,
        r#"V{ground}z"><title>node {node}: up to {rows} at once</title></path>"#
    )
}

/// The place from the left at this many tenths of a band's width.
fn in_band(wide: u32, band: u32, tenths: u64) -> u64 {
    let band = u128::from(band) * 10 + u128::from(tenths);
    (u128::from(wide) * band).saturating_add(740).min(15_740) as u64
}

/// The width of a ribbon of `count` messages: half a pixel, and 0.6 times the square root of `count`, at most 9 pixels.
fn breadth(count: u32) -> u64 {
    let root = (u64::from(count) * 36).isqrt();
    root.min(85).saturating_add(5)
}

/// The messages of one way.
pub(crate) fn push_ribbon(
    out: &mut String,
    scene: &Scene,
    ribbon: &Ribbon,
) -> Result<(), AllocError> {
    let (way, wide) = (ribbon.way, scene.bands.wide);
    let (start, end) = ends_of(scene, way.from, way.to);
    let from = at(in_band(wide, way.sent, 3), start);
    let to = at(in_band(wide, way.received, 7), end);
    let (node, width) = (way.from.0, Tenths(breadth(ribbon.count)));
    let look = format_args!(r#"class="r r{node}" stroke-width="{width}""#);
    push_curve(out, look, from, to, ribbon.count)
}
