//! What the JavaScript of a file, and the declarations of a surface, are when they are read again.
#![tactic(auto)]

ghost use Rattle.tb_emit_law.specs.Determined.{FaultIsOne, NotBoth, SurfaceIsOne};
ghost use Rattle.tb_emit_law.specs.DtsLaw.{DtsDerives, DtsReads, DtsReadsBack};
ghost use Rattle.tb_emit_law.specs.Law.{JsDerives, JsDerivesLongest, JsReadsBack};

/// The tokens of the JavaScript of a file that was read derive the erased file, item by item. Where no list of parameters
/// has a `?` after a `=`, each of these items is the longest front of the rest that a source may have as an item, and
/// reading gives the erased file. All but for offsets. So writing and reading again neither loses nor adds an item.
pub fn js_reads_back()
    ensures derives { JsDerives }
    ensures longest { JsDerivesLongest }
    ensures reads { JsReadsBack }
{}

/// The tokens of the declaration file of a surface derive that surface, item by item; that text reads as the surface; and
/// reading it answers the surface, or want of memory; all but for offsets. A surface is what a file that reads has, or
/// what a declaration file reads as.
pub fn dts_reads_back()
    ensures derives { DtsDerives }
    ensures whole { DtsReads }
    ensures reads { DtsReadsBack }
{}

/// How a declaration file reads is determined: it reads as one surface, or it has one fault, and never both.
pub fn declarations_are_determined()
    ensures surface { SurfaceIsOne }
    ensures fault { FaultIsOne }
    ensures not_both { NotBoth }
{}
