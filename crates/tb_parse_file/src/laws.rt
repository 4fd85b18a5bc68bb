ghost use Rattle.tb_parse_file.specs.Laws.{FaultIsOne, FileIsOne, NotBoth};

/// How a source reads is determined: it reads as one file, or it has one fault, and never both.
pub fn readings_are_determined()
    ensures file { FileIsOne }
    ensures fault { FaultIsOne }
    ensures not_both { NotBoth }
{}
