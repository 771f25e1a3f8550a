//! The run that a trace records, as a picture or as events.

ghost use Rattle.std.specs.Prelude.{◌≡◌, ◌≢◌, ◌≤◌, IfErr, OnOk, false};
ghost use Rattle.tp_draw.specs.Ends.{HasReadTrace};

use crate::events::events_of;
use crate::fault::Fault;
use crate::run_page::picture_of;
use crate::scene::scene_of;
use std::alloc::Global;
use std::io::{Read, Write};
use tp_base::MAX_NODES;
use tp_shell::write_text;
use tp_text::{Reading, Trace, read_trace};

/// What is written of a run.
#[derive(Clone, Copy, Debug, PartialEq, Eq)]
pub enum Form {
    /// A picture as SVG: this many pixels wide, or in its own size.
    Picture(Option<u32>),
    /// Chrome's trace events.
    Events,
}

/// How a run is shown.
#[derive(Clone, Copy, Debug, PartialEq, Eq)]
pub struct View {
    pub form: Form,
    /// Whether the steps before the first line at fault are drawn.
    pub until_fault: bool,
}

/// Reads a trace and writes its run. Nothing is written before the whole text is complete.
pub fn draw_run<I: Read, O: Write>(
    alloc: Global,
    view: View,
    reader: &mut I,
    out: &mut O,
) -> Result<(), Fault>
    // It succeeds only if all was read and it is a sound trace.
    ensures sound { OnOk result (HasReadTrace (I.remaining reader.old) (I.remaining reader.new)) }
    // No picture is drawn from a trace that is not sound, unless the part before its fault is asked for.
    ensures unwritten { view.until_fault ≡ false → IfErr result (λ fault. fault ≢ Fault.Write → out.new ≡ out.old) }
{
    match read_trace(alloc, reader) {
        Ok(Reading::Sound(trace)) => {
            let text = text_of_run(alloc, &trace, None, view.form)?;
            write_picture(out, &text)
        }
        Ok(Reading::Flawed(trace, complaint)) => {
            let line = text_of(alloc, complaint);
            if view.until_fault {
                let text = text_of_run(alloc, &trace, Some(&line), view.form)?;
                write_picture(out, &text)?;
            }
            Err(Fault::Unsound(line))
        }
        Ok(Reading::NoTrace(complaint)) => Err(Fault::Unsound(text_of(alloc, complaint))),
        Err(fault) => Err(Fault::Text(fault)),
    }
}

/// The complaint of an audit, which is ASCII.
fn text_of(alloc: Global, complaint: Vec<u8>) -> String {
    String::from_utf8(complaint).unwrap_or(String::new(alloc))
}

/// What is written of the steps of a trace, with the mark of the fault after them if there is one.
fn text_of_run(
    alloc: Global,
    trace: &Trace,
    fault: Option<&str>,
    form: Form,
) -> Result<String, Fault>
    ensures { IfErr result (λ fault. fault ≡ Fault.Memory) }
{
    let (nodes, steps) = (trace.nodes.clamp(1, MAX_NODES), trace.steps.as_slice());
    let text = match form {
        Form::Picture(pixels) => match scene_of(alloc, nodes, steps) {
            Ok(scene) => return Ok(picture_of(alloc, &scene, fault, pixels)?),
            Err(refusal) => Err(refusal),
        },
        Form::Events => events_of(alloc, nodes, steps, fault),
    };
    text.map_err(|_| Fault::Memory)
}

/// Writes a picture or another text.
pub(crate) fn write_picture<O: Write>(out: &mut O, text: &str) -> Result<(), Fault>
    ensures { IfErr result (λ fault. fault ≡ Fault.Write) }
{
    match write_text(out, text.as_bytes()) {
        Ok(()) => Ok(()),
        Err(_) => Err(Fault::Write),
    }
}
