//! The laws of pairings, from the definitions alone.
ghost use Rattle.p21_spec_pairing.specs.Laws.{NothingDiffersInTheSame, PairsAreOneToOne, SameIfNothingDiffers, TheSameArePaired};

/// Pairs are one to one, and what isn't in a pair went or came. Two files mean the same but for names where nothing differs by some
/// pairing. Nothing does by a pairing of two that are the same but for names, where the ranks of both together tell the instances
/// of one apart.
pub fn pairing_laws()
    ensures pairs { PairsAreOneToOne }
    ensures same { SameIfNothingDiffers }
    ensures nothing { NothingDiffersInTheSame }
    ensures paired { TheSameArePaired }
{}
