//! What a handle of C holds is taken out of it, and put into it.
//!
//! C and Python. A handle of C is a struct of one pointer that the caller keeps and the calls change, and not a bare
//! pointer: so it is empty once it is freed, a call that finds nothing or the wrong thing in it says so, and only the
//! few calls that reach the pointer need a proof by hand. A session shares the schema of its handle and keeps it as
//! long as it needs it, so that no handle has to outlive another. The statuses of calls are the program's exit
//! statuses, and the report has the number of a refusal and, as its subject, whether it is about a schema. Bytes are
//! handed out in memory of the library, which a call frees. In Python `same` takes the schema first, as the other calls
//! do. A file is a path or its bytes, and a schema is given by its text, or read by `Schema.read`: a text and a path
//! are both a `str`, and no rule tells every path from every text. What can only be a path is caught.
ghost use Rattle.std.specs.Prelude.{◌≡◌, None};
ghost use Rattle.p21_c.specs.Contents.{handed_content, boxed_content};

use crate::components::{BoxComponents, Handle};
use crate::contents::Holding;
use std::alloc::Global;
use std::mem::replace;

impl Handle {
    fn holding(alloc: Global, content: Holding) -> Handle
        ensures { result.value ≡ boxed_content content }
    {
        match content {
            None => Handle::empty(alloc),
            Some(content) => Handle::of_components(BoxComponents::of(content)),
        }
    }

    fn into_content(self) -> Holding
        ensures { boxed_content result ≡ self.value }
    {
        match self.into_components() {
            None => None,
            Some(components) => Some(components.into_box()),
        }
    }

    /// Takes out what is held.
    pub(crate) fn take(&mut self, alloc: Global) -> Holding
        ensures taken { boxed_content result ≡ self.old.value }
        ensures empty { self.new.value ≡ None }
    {
        replace(self, Handle::empty(alloc)).into_content()
    }

    /// Holds this from now on, and lets go of what was held.
    pub(crate) fn put(&mut self, alloc: Global, content: Holding)
        ensures { self.new.value ≡ boxed_content content }
    {
        let _ = replace(self, Handle::holding(alloc, content)).into_content();
    }

    /// Holds this from now on, where there is something.
    pub(crate) fn hand(&mut self, alloc: Global, content: Holding)
        ensures { self.new.value ≡ handed_content (boxed_content content) self.old.value }
    {
        if let Some(content) = content {
            self.put(alloc, Some(content));
        }
    }
}
