// The report of an accepted read: its first line, and a line for each step.
ghost use Rattle.std.specs.Prelude.{◌≡◌, ◌*◌, ◌≤◌, true, length, take, nat_le};
ghost use Rattle.std.specs.List.{flat_map};
ghost use Rattle.reading.specs.Told.{written_in};
ghost use Rattle.report.specs.Buffers.{Reports, step_room, read_room};
ghost use Rattle.report.specs.Texts.{accepted_text, line_of};
ghost use Rattle.report.specs.Writers.{HasRoom, Writes};

use crate::lines::{fields_size, put_fields, put_line};
use crate::reports::ReportError;
use crate::writers::{Writer, digits};
use reading::outcomes::Step;

const ACCEPTED: &[u8] = b"accepted";

// How many bytes a step's line has.
fn step_size(step: &Step) -> usize
    ensures size { result ≡ length (line_of step.now) }
    ensures few { result ≤ step_room }
{
    digits(step.rule as usize) + fields_size(&[step.first, step.width])
}

// Whether the lines of the steps find this much room; their sizes are not summed up, since the sum need not fit a usize.
fn has_room(steps: &[Step], room: usize) -> bool
    ensures fits { result ≡ nat_le (length (flat_map line_of steps.now)) room }
    ensures enough { step_room * length steps.now ≤ room → result ≡ true }
{
    let mut left = room;
    for step in steps {
        let size = step_size(step);
        if left < size {
            return false;
        }
        left -= size;
    }
    true
}

// Writes a step's line.
fn put_step(writer: &mut Writer, step: &Step)
    requires { HasRoom (line_of step.now) writer.old }
    ensures { Writes (line_of step.now) writer.old writer.new }
{
    writer.put_number(step.rule as usize);
    put_fields(writer, &[step.first, step.width]);
}

// Writes the lines of the steps.
fn put_steps(writer: &mut Writer, steps: &[Step])
    requires { HasRoom (flat_map line_of steps.now) writer.old }
    ensures { Writes (flat_map line_of steps.now) writer.old writer.new }
{
    for step in steps {
        put_step(writer, step);
    }
}

// The first places of the list, as many as there are steps, or all.
fn front(list: &[Step], steps: usize) -> &[Step]
    ensures { result.now ≡ take steps list.now }
{
    &list[..steps.min(list.len())]
}

// The report of an accepted read.
pub(crate) fn report_accepted(
    steps: usize,
    words: usize,
    list: &[Step],
    out: &mut [u8],
) -> Result<usize, ReportError>
    ensures { Reports (accepted_text steps words (written_in steps list.now)) (read_room (length list.now)) out.old out.new result }
{
    let written = front(list, steps);
    let fields = [steps, words];
    let size = ACCEPTED.len() + fields_size(&fields);
    if out.len() < size || !has_room(written, out.len() - size) {
        return Err(ReportError::Short);
    }
    let mut writer = Writer::new(out);
    put_line(&mut writer, ACCEPTED, &fields);
    put_steps(&mut writer, written);
    Ok(writer.len())
}
