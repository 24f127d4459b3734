//! What the histories of a reader say, from the definitions alone.
ghost use Rattle.p21_stream_statements.specs.Laws.{BeginsBehindStatements, StandsInData};

/// The bytes that a reader has taken are whole statements and those of one that is open, and what it held where this one began stands for
/// the statements. Where it stands in a data section, one is open behind the statements given.
pub fn reader_laws()
    ensures begun { BeginsBehindStatements }
    ensures in_data { StandsInData }
{}
