//! The laws of the numbered file, and of a file with other names: what their lines are once they are put together.
ghost use Rattle.p21_numbered.specs.NumberedLaws.{KeptIsNumbered, KeptIsOnlyNumbered, KeptIsOnlyRenamed, KeptIsRenamed};

/// The header and the sections of an accepted file, with the lines of its instances under their numbers, are its numbered file,
/// where it is decided and they are within the limits; and where they aren't, it has none. Under other names they are the canonical file
/// of what it means with these names.
pub fn numbered_laws()
    ensures kept { KeptIsNumbered }
    ensures only { KeptIsOnlyNumbered }
    ensures renamed { KeptIsRenamed }
    ensures only_renamed { KeptIsOnlyRenamed }
{}
