//! The laws of ranks and numbers, and the claim of numbered files, from the definitions alone.
ghost use Rattle.p21_spec_numbering.specs.Claim.{NumberingHeadline, RankingHeadline};
ghost use Rattle.p21_spec_numbering.specs.Laws.{AlignedOrdersAreSame, AlignedOrdersTellSameness, AlikeGivesParts, IsEquivalence, MeaningsAreProper, NoChoiceOfDecidedCounts, OneOfEachRankHangsTogether, PartsGiveOrders, RanksAreInvariant, RanksStandStill, SameAreDecidedAlike, SameHaveAsFewChoices, SpreadIsKept};

/// The claim: two accepted files whose instances are decided mean the same but for the names of their instances exactly if
/// their numbered files are equal, and a numbered file is accepted, means what its source meant but for names, and is its own.
/// It holds for the ranks by rounds, and for each ranking for which names and orders don't count.
pub fn numbering_headline()
    ensures claim { NumberingHeadline }
    ensures each_ranking { RankingHeadline }
{}

/// To be the same but for names is an equivalence, and neither names nor orders count for ranks. Exchanging copies leaves the
/// meaning as it is, and what code decides is decided.
pub fn numbering_laws()
    ensures proper { MeaningsAreProper }
    ensures equivalence { IsEquivalence }
    ensures invariant { RanksAreInvariant }
    ensures still { RanksStandStill }
    ensures exchanged { AlignedOrdersAreSame }
    ensures choices { SameHaveAsFewChoices }
    ensures orders { AlignedOrdersTellSameness }
    ensures spread { SpreadIsKept }
    ensures hanging { OneOfEachRankHangsTogether }
    ensures parts { PartsGiveOrders }
    ensures parts_alike { AlikeGivesParts }
    ensures decided { NoChoiceOfDecidedCounts }
    ensures decided_alike { SameAreDecidedAlike }
{}
