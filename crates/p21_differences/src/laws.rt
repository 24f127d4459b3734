//! The law of the lines of an accepted file, from the definitions alone.
ghost use Rattle.p21_differences.specs.Laws.{LinesAreOfMeaning};

/// The lines of the instances of a file, each once, tell what it means.
pub fn lines_law()
    ensures of_meaning { LinesAreOfMeaning }
{}
