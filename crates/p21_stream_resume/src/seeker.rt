ghost use Rattle.std.specs.Prelude.{◌≡◌, ◌<◌, ◌∷◌, ◌++◌, [], IfOk, IfSome, OnOk, length};
ghost use Rattle.p21_stream_resume.specs.Seeking.{BeginsSeeking, SeeksOn, held_behind};

use crate::mode::{Mode, Step};
use crate::signpost::Signpost;
use crate::step::step;
use std::alloc::{AllocError, Global};
use std::marker::Model;

/// Finds the first signpost in bytes that come in pieces.
#[derive(Drop)]
pub struct Seeker {
    mode: Mode,
    // The bytes of the signpost that is open, or of the one that was found.
    begun: Vec<u8>,
}

impl Model for Seeker {
    ghost use Rattle.p21_stream_resume.specs.Seeking.{Held};

    ghost Value = { Held };

    ghost view = { λ seeker. record { mode = seeker.mode; begun = seeker.begun.items } };
}

impl Seeker {
    /// A seeker that has taken no bytes. It is told whether a `;`, a `)` or the end of a line is the last byte in front of them, blanks
    /// apart. It takes no memory.
    pub fn new(alloc: Global, opened: bool) -> Seeker
        ensures { BeginsSeeking opened result }
    {
        Seeker {
            mode: if opened { Mode::Opened } else { Mode::Closed },
            begun: Vec::new(alloc),
        }
    }

    /// Takes the bytes of a piece up to the last byte of the first signpost: says how many stand in front of this byte, and which
    /// signpost it is. `None` where no signpost is whole: then all are taken. Where one was found the seeker has done its work, and
    /// holds the bytes of the signpost.
    ///
    /// # Errors
    ///
    /// Where memory is refused for the bytes of a signpost that is open.
    pub fn seek(&mut self, piece: &[u8]) -> Result<Option<(usize, Signpost)>, AllocError>
        ensures within { IfOk result (λ answer. IfSome answer (λ found. found.0 < length piece.now)) }
        ensures gives { IfOk result (λ answer. SeeksOn self.old piece.now answer self.new) }
    {
        for (place, byte) in piece.iter().enumerate() {
            match step(self.mode, *byte) {
                Step::Goes(mode) => {
                    if let Err(AllocError) = self.go(mode, *byte) {
                        return Err(AllocError);
                    }
                }
                Step::Ends(signpost) => {
                    return match self.push(*byte) {
                        Ok(()) => Ok(Some((place, signpost))),
                        Err(AllocError) => Err(AllocError),
                    };
                }
            }
        }
        Ok(None)
    }

    /// The bytes of the signpost that was found.
    pub fn signpost_bytes(&self) -> &[u8]
        ensures { result.now ≡ self.now.begun }
    {
        &self.begun
    }

    /// Takes a byte that leads to a mode.
    fn go(&mut self, mode: Mode, byte: u8) -> Result<(), AllocError>
        ensures { OnOk result (self.new ≡ held_behind self.old mode byte) }
    {
        self.mode = mode;
        match mode {
            Mode::Closed => {
                self.begun.clear();
                Ok(())
            }
            Mode::Opened => {
                self.begun.clear();
                Ok(())
            }
            Mode::Hash => {
                self.begun.clear();
                self.push(byte)
            }
            Mode::Word(_, taken) => {
                if taken == 1 {
                    self.begun.clear();
                }
                self.push(byte)
            }
            Mode::Digits(_) => self.push(byte),
            Mode::NameGap(_, _, _) => self.push(byte),
            Mode::SectionGap(_, _) => self.push(byte),
        }
    }

    /// One byte more of a signpost.
    fn push(&mut self, byte: u8) -> Result<(), AllocError>
        ensures { OnOk result (self.new ≡ record self.old { begun = self.old.begun ++ byte ∷ [] }) }
    {
        let Ok(()) = self.begun.push(byte) else {
            return Err(AllocError);
        };
        Ok(())
    }
}
