//! The way from the statement of an instance down to what stands next in it.

use p21_values::NoMemory;
use std::alloc::Global;

/// Of a way so many steps are kept, the outermost ones: the value of a part and the elements in eight lists around one another.
const MOST_STEPS: usize = 9;

/// Behind the name of an instance: which part of it is open, and the way to what stands next in it.
#[derive(Drop)]
pub(crate) struct Way {
    // The keyword of the part that is open, or of the one that was read last.
    keyword: Vec<u8>,
    // Whether the next byte of a keyword goes on with it.
    is_open: bool,
    // How many parentheses are open, and how many with the parameters of a part.
    depth: usize,
    part_depth: usize,
    // The numbers from 1 on of the parameter and, in it, of the elements.
    steps: [u32; MOST_STEPS],
}

impl Way {
    /// A way in an instance of which nothing is read behind its name. It takes no memory.
    pub(crate) fn new(alloc: Global) -> Way {
        Way {
            keyword: Vec::new(alloc),
            is_open: false,
            depth: 0,
            part_depth: 1,
            steps: [0; MOST_STEPS],
        }
    }

    /// Begins behind the name of another instance.
    pub(crate) fn begin(&mut self) {
        self.keyword.clear();
        self.is_open = false;
        self.depth = 0;
        self.part_depth = 1;
    }

    /// Takes a byte that stands in no string and no remark, and is none of a name.
    ///
    /// # Errors
    ///
    /// `NoMemory`.
    pub(crate) fn take(&mut self, byte: u8) -> Result<(), NoMemory> {
        match byte {
            b'(' => self.enter(),
            b')' => self.depth = self.depth.saturating_sub(1),
            b',' => self.pass(),
            _ if self.is_in_part() => {}
            _ => return self.spell(byte),
        }
        self.is_open = false;
        Ok(())
    }

    /// Takes a byte in front of a part, or of its keyword.
    fn spell(&mut self, byte: u8) -> Result<(), NoMemory> {
        if !is_of_keyword(byte) {
            self.is_open = false;
            return Ok(());
        }
        if !self.is_open {
            self.keyword.clear();
            self.is_open = true;
        }
        self.keyword.push(byte)?;
        Ok(())
    }

    /// Takes an opening parenthesis: that of parts, of the parameters of one, of a list, or of a typed parameter.
    fn enter(&mut self) {
        if self.depth == 0 && self.keyword.is_empty() {
            self.part_depth = 2;
        }
        self.depth = self.depth.saturating_add(1);
        let at = self.innermost();
        if let Some(step) = self.steps.get_mut(at) {
            *step = 1;
        }
    }

    /// Takes a comma.
    fn pass(&mut self) {
        let at = self.innermost();
        if let Some(step) = self.steps.get_mut(at) {
            *step = step.saturating_add(1);
        }
    }

    /// Which step is the innermost one; one that isn't kept where no parameters are open.
    fn innermost(&self) -> usize {
        match self.depth.checked_sub(self.part_depth) {
            Some(at) => at,
            None => MOST_STEPS,
        }
    }

    /// Whether the parameters of a part are open.
    pub(crate) fn is_in_part(&self) -> bool {
        self.depth >= self.part_depth
    }

    /// Whether the instance has no parts in parentheses.
    pub(crate) fn is_alone(&self) -> bool {
        self.part_depth == 1
    }

    /// The keyword of the part that is open, or of the one that was read last.
    pub(crate) fn keyword(&self) -> &[u8] {
        &self.keyword
    }

    /// The number of the parameter and, in it, of the elements down to what stands next, each from 1 on.
    pub(crate) fn steps(&self) -> &[u32] {
        let behind = self.depth.saturating_add(1);
        let count = behind.saturating_sub(self.part_depth).min(MOST_STEPS);
        self.steps.get(..count).unwrap_or(&[])
    }
}

/// Whether a keyword may have a byte: it is none of a sign or a separator.
fn is_of_keyword(byte: u8) -> bool {
    byte.is_ascii_alphanumeric() || byte == b'_' || byte == b'!'
}
