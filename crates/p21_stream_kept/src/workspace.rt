//! What a general instance uses again: the line, the parser's stack of open rows, and the order and the set of its
//! entity, which the schema keeps. Each parameter is moved into the value that it means, so that no text or number is
//! copied. A set of entities is made anew only where it has more than 64, or the record is of external form (`Ids`).
//!
//! Rows of parameters and of values are made anew for each instance. Emptied rows were used again once. That brought
//! 240 of 11,300 instructions of a point, and hardly any time (docs/dev/LAYERS.md), since glibc keeps blocks of each
//! size at hand; it cost 240 lines, an argument of `Parser::take`, another call beside `check_owned_record`, and
//! contracts that spoke of rooms. So it was taken out.
ghost use Rattle.std.specs.Prelude.{◌≡◌, ◌<◌, ◌≤◌, []};
ghost use Rattle.std.specs.Vec.{vec_capacity};

use p21_mapping::Trail;
use std::alloc::Global;

/// The most room in bytes that the line of an instance keeps for the next one.
const LINE_ROOM: usize = 65_536;

/// Where the canonical line of one instance after another is written. Nothing in it counts for what is kept.
#[derive(Drop)]
pub struct Workspace {
    /// The canonical line of the instance that was checked last.
    pub line: Vec<u8>,
    /// Where the record of the instance was refused that was checked last.
    pub trail: Trail,
}

impl Workspace {
    /// A workspace in which nothing was checked. It takes no memory.
    pub fn new(alloc: Global) -> Workspace
        ensures line { result.line.items ≡ [] }
        ensures room { vec_capacity result.line ≡ 0 }
    {
        Workspace {
            line: Vec::new(alloc),
            trail: Trail::new(),
        }
    }

    /// Gives back the room of a line that has more than 65,536 bytes of it. It takes no memory.
    pub fn trim(&mut self)
        ensures given_back { 65536 < vec_capacity self.old.line → vec_capacity self.new.line ≡ 0 }
        ensures kept { vec_capacity self.old.line ≤ 65536 → self.new.line ≡ self.old.line }
        ensures short { vec_capacity self.new.line ≤ 65536 }
    {
        if self.line.capacity() > LINE_ROOM {
            self.line = Vec::new(*self.line.allocator());
        }
    }
}
