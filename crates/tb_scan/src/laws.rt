ghost use Rattle.tb_scan.specs.Laws.{EndHasNone, NextIsOne, ScanIsLaidOut, ScanIsOne};

/// The tokens of a text are determined: at each place one token is next, or none; and a text has one list of tokens, which lie
/// in it in order.
pub fn tokens_are_determined()
    ensures next { NextIsOne }
    ensures end { EndHasNone }
    ensures scan { ScanIsOne }
    ensures laid_out { ScanIsLaidOut }
{}
