//! What holds for all histories: the functions do nothing, and their contracts are the laws.
ghost use Rattle.history.specs.Laws.{SurvivorsAloneRemain, AgreedPlansAreNew};

use footprint::Operation;

/// After any calls and commits on any tree, the rows say what the surviving commands alone would
/// do. A survivor that no row blocks can be removed, and an undone command that no row hinders can
/// be put back.
pub fn survivors_alone_remain<O: Operation>()
    ensures { SurvivorsAloneRemain O.asks O.meaning }
{}

/// A tree agrees with all that a plan looked at exactly if a plan of the same operation, made on
/// that tree, is the same plan.
pub fn agreed_plans_are_new<O: Operation>()
    ensures { AgreedPlansAreNew O.meaning }
{}
