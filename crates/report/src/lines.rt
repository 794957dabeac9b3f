// Lines, and reports of one line.
ghost use Rattle.std.specs.Prelude.{◌≡◌, ◌+◌, ◌*◌, ◌≤◌, length};
ghost use Rattle.report.specs.Buffers.{Reports, line_room};
ghost use Rattle.report.specs.Texts.{field_text, fields_text, line_text};
ghost use Rattle.report.specs.Writers.{HasRoom, Writes};

use crate::reports::ReportError;
use crate::writers::{Writer, digits};

// How many bytes the fields past the first of a line have, with the newline.
pub(crate) fn fields_size(fields: &[usize]) -> usize
    requires { length fields.now ≤ 5 }
    ensures size { result ≡ length (fields_text fields.now) }
    ensures few { result ≤ 21 * length fields.now + 1 }
{
    let mut size = 1;
    for field in fields {
        size += 1 + digits(*field);
    }
    size
}

// Writes a blank and a number.
fn put_field(writer: &mut Writer, field: usize)
    requires { HasRoom (field_text field) writer.old }
    ensures { Writes (field_text field) writer.old writer.new }
{
    writer.put_byte(b' ');
    writer.put_number(field);
}

// Writes the fields past the first of a line, and the newline.
pub(crate) fn put_fields(writer: &mut Writer, fields: &[usize])
    requires { HasRoom (fields_text fields.now) writer.old }
    ensures { Writes (fields_text fields.now) writer.old writer.new }
{
    for field in fields {
        put_field(writer, *field);
    }
    writer.put_byte(b'\n');
}

// Writes a line.
pub(crate) fn put_line(writer: &mut Writer, word: &[u8], fields: &[usize])
    requires { HasRoom (line_text word.now fields.now) writer.old }
    ensures { Writes (line_text word.now fields.now) writer.old writer.new }
{
    writer.put(word);
    put_fields(writer, fields);
}

// The report that is one line.
pub(crate) fn report_line(
    word: &[u8],
    fields: &[usize],
    out: &mut [u8],
) -> Result<usize, ReportError>
    requires word_len_bound { length word.now ≤ 8 }
    requires fields_len_bound { length fields.now ≤ 5 }
    ensures { Reports (line_text word.now fields.now) line_room out.old out.new result }
{
    if out.len() < word.len() + fields_size(fields) {
        return Err(ReportError::Short);
    }
    let mut writer = Writer::new(out);
    put_line(&mut writer, word, fields);
    Ok(writer.len())
}
