ghost use Rattle.p21_stream.specs.Laws.{DeadByStatement, DeadByStep, HeldWhileLive, LiveAtStart, LiveByPiece, LiveByStatement, LiveByToken};

/// What is known of the bytes taken stays known with each token and each statement; where one is refused, nothing that is
/// accepted begins with the bytes taken; and what is held is what the definition says.
pub fn session_laws()
    ensures at_start { LiveAtStart }
    ensures by_token { LiveByToken }
    ensures by_piece { LiveByPiece }
    ensures by_statement { LiveByStatement }
    ensures dead_statement { DeadByStatement }
    ensures dead_step { DeadByStep }
    ensures held { HeldWhileLive }
{}
