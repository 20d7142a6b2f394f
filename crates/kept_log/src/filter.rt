//! What a log is asked for.

use history::Operator;
use kept_texts::Time;
use unit_name::UnitName;

/// Which rows a log shows. Without any of these, all.
#[derive(Debug, Drop)]
pub struct Filter {
    /// Only rows that concern this unit.
    pub unit: Option<UnitName>,
    /// Only rows of this operator.
    pub operator: Option<Operator>,
    /// Only rows of runs at this time or later.
    pub since: Option<Time>,
    /// Only the last of the rows that meet all else, at most this many.
    pub lines: Option<u32>,
}
