//! Lengths, places and areas on a page, all in tenths of a pixel, as an SVG spells them; and what is written in several places.

use std::alloc::AllocError;
use std::fmt;

/// The number of an event for a reader, who counts them from 1.
pub(crate) fn number_of(event: u32) -> u64 {
    u64::from(event) + 1
}

/// A length, in pixels with one digit after the point.
#[derive(Clone, Copy)]
pub(crate) struct Tenths(pub(crate) u64);

impl fmt::Display for Tenths {
    fn fmt<W: fmt::Write>(&self, f: &mut fmt::Formatter<W>) -> fmt::Result {
        let pixels = self.0 / 10;
        let tenths = self.0 % 10;
        write!(f, "{pixels}.{tenths}")
    }
}

/// A place on the page.
#[derive(Clone, Copy)]
pub(crate) struct Point {
    pub(crate) x: u64,
    pub(crate) y: u64,
}

pub(crate) fn at(x: u64, y: u64) -> Point {
    Point { x, y }
}

impl fmt::Display for Point {
    fn fmt<W: fmt::Write>(&self, f: &mut fmt::Formatter<W>) -> fmt::Result {
        write!(f, "{},{}", Tenths(self.x), Tenths(self.y))
    }
}

/// A rectangle, as its attributes.
#[derive(Clone, Copy)]
pub(crate) struct Area {
    pub(crate) corner: Point,
    pub(crate) width: u64,
    pub(crate) height: u64,
}

pub(crate) fn area_of(corner: Point, width: u64, height: u64) -> Area {
    Area {
        corner,
        width,
        height,
    }
}

impl Area {
    pub(crate) fn middle(&self) -> Point {
        let Point { x, y } = self.corner;
        at(
            x.saturating_add(self.width / 2),
            y.saturating_add(self.height / 2),
        )
    }
}

impl fmt::Display for Area {
    fn fmt<W: fmt::Write>(&self, f: &mut fmt::Formatter<W>) -> fmt::Result {
        let (x, y) = (Tenths(self.corner.x), Tenths(self.corner.y));
        let (width, height) = (Tenths(self.width), Tenths(self.height));
        write!(f, r#" x="{x}" y="{y}" width="{width}" height="{height}""#)
    }
}

/// The handle of a curve that leaves a place for another: straight above or below it.
fn handle(from: Point, to: Point) -> Point {
    let down = to.y.saturating_sub(from.y).saturating_mul(9) / 20;
    let up = from.y.saturating_sub(to.y).saturating_mul(9) / 20;
    at(from.x, from.y.saturating_add(down).saturating_sub(up))
}

/// A curve from one place to another, vertical at both, with the attributes that show how it looks, and a title.
pub(crate) fn push_curve<L: fmt::Display + Drop, T: fmt::Display + Drop>(
    out: &mut String,
    look: L,
    from: Point,
    to: Point,
    title: T,
) -> Result<(), AllocError> {
    let (first, second) = (handle(from, to), handle(to, from));
    writeln!(
        out,
        r#"<path {look} d="M{from}C{first} {second} {to}"><title>{title}</title></path>"#
    )
}

pub(crate) fn push_circle<C: fmt::Display + Drop>(
    out: &mut String,
    class: C,
    middle: Point,
    radius: &str,
) -> Result<(), AllocError> {
    let (x, y) = (Tenths(middle.x), Tenths(middle.y));
    writeln!(
        out,
        r#"<circle class="{class}" cx="{x}" cy="{y}" r="{radius}"/>"#
    )
}

pub(crate) fn push_text<C: fmt::Display + Drop, T: fmt::Display + Drop>(
    out: &mut String,
    class: C,
    place: Point,
    text: T,
) -> Result<(), AllocError> {
    let (x, y) = (Tenths(place.x), Tenths(place.y));
    writeln!(
        out,
        r#"<text class="{class}" x="{x}" y="{y}">{text}</text>"#
    )
}
