//! The lines of a canonical file that are of no instance, byte by byte.
use p21_values::NoMemory;
use std::alloc::Global;

/// Where a line stands.
#[derive(Clone, Copy, PartialEq, Eq)]
enum Stage {
    Start,
    Header,
    Data,
}

/// Lines with their line feeds, and the line that is open.
#[derive(Drop)]
pub(crate) struct Taking {
    pub(crate) header: Vec<u8>,
    pub(crate) sections: Vec<u8>,
    line: Vec<u8>,
    stage: Stage,
    // The open line is that of an instance, of which nothing is kept.
    is_instance: bool,
}

impl Taking {
    pub(crate) fn new(alloc: Global) -> Taking {
        Taking {
            header: Vec::new(alloc),
            sections: Vec::new(alloc),
            line: Vec::new(alloc),
            stage: Stage::Start,
            is_instance: false,
        }
    }

    /// Takes bytes.
    pub(crate) fn take(&mut self, piece: &[u8]) -> Result<(), NoMemory> {
        for byte in piece {
            self.take_byte(*byte)?;
        }
        Ok(())
    }

    /// Takes a byte.
    fn take_byte(&mut self, byte: u8) -> Result<(), NoMemory> {
        if self.is_instance {
            self.is_instance = byte != b'\n';
            return Ok(());
        }
        if byte == b'\n' {
            return self.end_line();
        }
        if byte == b'#' && self.line.is_empty() {
            self.is_instance = true;
            return Ok(());
        }
        self.line.push(byte)?;
        Ok(())
    }

    /// Takes the end of a line that is of no instance.
    fn end_line(&mut self) -> Result<(), NoMemory> {
        match self.stage {
            Stage::Start => {
                if self.line.as_slice() == b"HEADER;".as_slice() {
                    self.stage = Stage::Header;
                }
            }
            Stage::Header => {
                if self.line.as_slice() == b"ENDSEC;".as_slice() {
                    self.stage = Stage::Data;
                } else {
                    self.header.extend_from_slice(&self.line)?;
                    self.header.push(b'\n')?;
                }
            }
            Stage::Data => {
                if self.line.first() == Some(&b'D') {
                    self.sections.extend_from_slice(&self.line)?;
                    self.sections.push(b'\n')?;
                }
            }
        }
        self.line.clear();
        Ok(())
    }
}
