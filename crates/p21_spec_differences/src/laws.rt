//! The laws of differences, from the definitions alone.
ghost use Rattle.p21_spec_differences.specs.Laws.{HeadersAreTold, NamesAreTold, NothingDiffersInTheSame, SectionsAreTold};

/// Two files mean the same exactly if nothing differs. So it is with their headers, with their sections, and with what each says
/// of a name: nothing about it differs exactly if neither file has an instance of it, or both have it with the same meaning in
/// the same section.
pub fn difference_laws()
    ensures same { NothingDiffersInTheSame }
    ensures headers { HeadersAreTold }
    ensures sections { SectionsAreTold }
    ensures names { NamesAreTold }
{}
