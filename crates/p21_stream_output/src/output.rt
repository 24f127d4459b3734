//! Lines on their way to a writer.
//!
//! What `write_to` writes waits in 64 KiB on the stack. Without that, a file of lines out of order would cost a system
//! call a line; and the stack takes no memory. Nothing waits once the call has answered.
ghost use Rattle.std.specs.Prelude.{◌≡◌, ◌++◌, map, OnErr, OnOk};
ghost use Rattle.std.specs.Io.KnownBytes.{Appends};
ghost use Rattle.p21_stream_output.specs.Output.{header_text, line_of, lines_of, section_text, sections_text, written_text};
ghost use Rattle.p21_stream_output.specs.Stored.{HavePositions, ArePositions, texts_at, written_section};
ghost use Rattle.p21_stream_store.specs.Lines.{read_lines};
ghost use Rattle.p21_stream_io.specs.Transfer.{AppendsAllBut, AppendsPartOf};
ghost use Rattle.p21_stream_io.specs.Watch.{one_call_more};

use crate::accepted::Section;
use p21_stream_io::{Waiting, Watched, WriteFault};
use p21_stream_store::{Instances, Numbers};
use std::io::Write;

/// Puts a text and a line feed behind the bytes that wait.
pub(crate) fn put_line<W: Write>(
    waiting: &mut Waiting,
    writer: &mut Watched<W>,
    text: &[u8],
) -> Result<(), WriteFault>
    ensures ok { OnOk result (AppendsAllBut (W.contents writer.old.inner) (W.contents writer.new.inner) (waiting.old ++ line_of text.now)
        waiting.new) }
    ensures err { OnErr result (AppendsPartOf (W.contents writer.old.inner) (W.contents writer.new.inner) (waiting.old ++ line_of text.now)) }

    ensures written { OnOk result (writer.new.failures ≡ writer.old.failures) }
    ensures failed { OnErr result (writer.new.failures ≡ one_call_more writer.old.failures) }
{
    let Ok(()) = waiting.put(writer, text) else {
        return Err(WriteFault);
    };
    let Ok(()) = waiting.put(writer, b"\n") else {
        return Err(WriteFault);
    };
    Ok(())
}

/// Puts lines.
fn put_texts<W: Write>(
    waiting: &mut Waiting,
    writer: &mut Watched<W>,
    texts: &[&[u8]],
) -> Result<(), WriteFault>
    ensures ok { OnOk result (AppendsAllBut (W.contents writer.old.inner) (W.contents writer.new.inner)
        (waiting.old ++ lines_of (read_lines texts.now)) waiting.new) }
    ensures err { OnErr result (AppendsPartOf (W.contents writer.old.inner) (W.contents writer.new.inner)
        (waiting.old ++ lines_of (read_lines texts.now))) }

    ensures written { OnOk result (writer.new.failures ≡ writer.old.failures) }
    ensures failed { OnErr result (writer.new.failures ≡ one_call_more writer.old.failures) }
{
    for text in texts {
        let Ok(()) = put_line(waiting, writer, text) else {
            return Err(WriteFault);
        };
    }
    Ok(())
}

/// Puts the lines of instances.
fn put_lines<W: Write>(
    waiting: &mut Waiting,
    writer: &mut Watched<W>,
    instances: &Instances,
    instance_positions: &Numbers,
) -> Result<(), WriteFault>
    requires { ArePositions instances.now instance_positions.now }
    ensures ok { OnOk result (AppendsAllBut (W.contents writer.old.inner) (W.contents writer.new.inner)
        (waiting.old ++ lines_of (texts_at instances.now instance_positions.now)) waiting.new) }
    ensures err { OnErr result (AppendsPartOf (W.contents writer.old.inner) (W.contents writer.new.inner)
        (waiting.old ++ lines_of (texts_at instances.now instance_positions.now))) }

    ensures written { OnOk result (writer.new.failures ≡ writer.old.failures) }
    ensures failed { OnErr result (writer.new.failures ≡ one_call_more writer.old.failures) }
{
    let mut next = 0;
    while next < instance_positions.len() {
        let lines = instances.lines(instance_positions, next);
        let Ok(()) = put_texts(waiting, writer, lines.texts()) else {
            return Err(WriteFault);
        };
        next += lines.len();
    }
    Ok(())
}

/// Puts a data section.
fn put_section<W: Write>(
    waiting: &mut Waiting,
    writer: &mut Watched<W>,
    instances: &Instances,
    section: &Section,
) -> Result<(), WriteFault>
    requires { ArePositions instances.now section.now.instance_positions }
    ensures ok { OnOk result (AppendsAllBut (W.contents writer.old.inner) (W.contents writer.new.inner)
        (waiting.old ++ section_text (written_section instances.now section.now)) waiting.new) }
    ensures err { OnErr result (AppendsPartOf (W.contents writer.old.inner) (W.contents writer.new.inner)
        (waiting.old ++ section_text (written_section instances.now section.now))) }

    ensures written { OnOk result (writer.new.failures ≡ writer.old.failures) }
    ensures failed { OnErr result (writer.new.failures ≡ one_call_more writer.old.failures) }
{
    let Ok(()) = put_line(waiting, writer, &section.line) else {
        return Err(WriteFault);
    };
    let Ok(()) = put_lines(waiting, writer, instances, &section.instance_positions) else {
        return Err(WriteFault);
    };
    let Ok(()) = put_line(waiting, writer, b"ENDSEC;") else {
        return Err(WriteFault);
    };
    Ok(())
}

/// Puts the data sections.
fn put_sections<W: Write>(
    waiting: &mut Waiting,
    writer: &mut Watched<W>,
    instances: &Instances,
    sections: &[Section],
) -> Result<(), WriteFault>
    requires { HavePositions instances.now sections.now }
    ensures ok { OnOk result (AppendsAllBut (W.contents writer.old.inner) (W.contents writer.new.inner)
        (waiting.old ++ sections_text (map (written_section instances.now) sections.now)) waiting.new) }
    ensures err { OnErr result (AppendsPartOf (W.contents writer.old.inner) (W.contents writer.new.inner)
        (waiting.old ++ sections_text (map (written_section instances.now) sections.now))) }

    ensures written { OnOk result (writer.new.failures ≡ writer.old.failures) }
    ensures failed { OnErr result (writer.new.failures ≡ one_call_more writer.old.failures) }
{
    for section in sections {
        let Ok(()) = put_section(waiting, writer, instances, section) else {
            return Err(WriteFault);
        };
    }
    Ok(())
}

/// Puts the lines of the header section.
fn put_header<W: Write>(
    waiting: &mut Waiting,
    writer: &mut Watched<W>,
    header: &[u8],
) -> Result<(), WriteFault>
    ensures ok { OnOk result (AppendsAllBut (W.contents writer.old.inner) (W.contents writer.new.inner)
        (waiting.old ++ header_text header.now) waiting.new) }
    ensures err { OnErr result (AppendsPartOf (W.contents writer.old.inner) (W.contents writer.new.inner)
        (waiting.old ++ header_text header.now)) }

    ensures written { OnOk result (writer.new.failures ≡ writer.old.failures) }
    ensures failed { OnErr result (writer.new.failures ≡ one_call_more writer.old.failures) }
{
    let Ok(()) = waiting.put(writer, b"ISO-10303-21;\nHEADER;\n") else {
        return Err(WriteFault);
    };
    let Ok(()) = waiting.put(writer, header) else {
        return Err(WriteFault);
    };
    let Ok(()) = put_line(waiting, writer, b"ENDSEC;") else {
        return Err(WriteFault);
    };
    Ok(())
}

/// Puts a whole file.
fn put_file<W: Write>(
    waiting: &mut Waiting,
    writer: &mut Watched<W>,
    header: &[u8],
    sections: &[Section],
    instances: &Instances,
) -> Result<(), WriteFault>
    requires { HavePositions instances.now sections.now }
    ensures ok { OnOk result (AppendsAllBut (W.contents writer.old.inner) (W.contents writer.new.inner)
        (waiting.old ++ written_text header.now (map (written_section instances.now) sections.now)) waiting.new) }
    ensures err { OnErr result (AppendsPartOf (W.contents writer.old.inner) (W.contents writer.new.inner)
        (waiting.old ++ written_text header.now (map (written_section instances.now) sections.now))) }

    ensures written { OnOk result (writer.new.failures ≡ writer.old.failures) }
    ensures failed { OnErr result (writer.new.failures ≡ one_call_more writer.old.failures) }
{
    let Ok(()) = put_header(waiting, writer, header) else {
        return Err(WriteFault);
    };
    let Ok(()) = put_sections(waiting, writer, instances, sections) else {
        return Err(WriteFault);
    };
    let Ok(()) = put_line(waiting, writer, b"END-ISO-10303-21;") else {
        return Err(WriteFault);
    };
    Ok(())
}

/// Writes a whole file. No byte stands in a buffer afterwards.
pub(crate) fn write_file<W: Write>(
    writer: &mut Watched<W>,
    header: &[u8],
    sections: &[Section],
    instances: &Instances,
) -> Result<(), WriteFault>
    requires { HavePositions instances.now sections.now }
    ensures ok { OnOk result (Appends (W.contents writer.old.inner) (W.contents writer.new.inner)
        (written_text header.now (map (written_section instances.now) sections.now))) }
    ensures err { OnErr result (AppendsPartOf (W.contents writer.old.inner) (W.contents writer.new.inner)
        (written_text header.now (map (written_section instances.now) sections.now))) }

    ensures written { OnOk result (writer.new.failures ≡ writer.old.failures) }
    ensures failed { OnErr result (writer.new.failures ≡ one_call_more writer.old.failures) }
{
    let mut waiting = Waiting::new();
    let Ok(()) = put_file(&mut waiting, writer, header, sections, instances) else {
        return Err(WriteFault);
    };
    let Ok(()) = waiting.flush(writer) else {
        return Err(WriteFault);
    };
    Ok(())
}
