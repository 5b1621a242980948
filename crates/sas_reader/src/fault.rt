//! Why a file can't be read.

ghost use Rattle.std.specs.Prelude.{◌≡◌};
ghost use Rattle.sas_reader.specs.Printed.{printed};

use thiserror::Error;

/// What a line of a task file has to be.
#[derive(Clone, Copy, Debug, PartialEq, Eq)]
pub enum Shape {
    BeginVersion,
    Three,
    EndVersion,
    BeginMetric,
    Metric,
    EndMetric,
    Count,
    BeginVariable,
    Name,
    Layer,
    Range,
    EndVariable,
    BeginMutex,
    Fact,
    EndMutex,
    BeginState,
    Value,
    EndState,
    BeginGoal,
    EndGoal,
    BeginOperator,
    Effect,
    Cost,
    EndOperator,
    BeginRule,
    Head,
    EndRule,
    Blank,
}

impl Shape {
    /// The word that is printed for the shape.
    #[tactic(auto, unfolding(crate::specs::Printed::printed))]
    pub fn text(self) -> &'static str
        ensures { result.now ≡ printed self }
    {
        match self {
            Shape::BeginVersion => "begin_version",
            Shape::Three => "3",
            Shape::EndVersion => "end_version",
            Shape::BeginMetric => "begin_metric",
            Shape::Metric => "metric",
            Shape::EndMetric => "end_metric",
            Shape::Count => "count",
            Shape::BeginVariable => "begin_variable",
            Shape::Name => "name",
            Shape::Layer => "layer",
            Shape::Range => "range",
            Shape::EndVariable => "end_variable",
            Shape::BeginMutex => "begin_mutex_group",
            Shape::Fact => "fact",
            Shape::EndMutex => "end_mutex_group",
            Shape::BeginState => "begin_state",
            Shape::Value => "value",
            Shape::EndState => "end_state",
            Shape::BeginGoal => "begin_goal",
            Shape::EndGoal => "end_goal",
            Shape::BeginOperator => "begin_operator",
            Shape::Effect => "effect",
            Shape::Cost => "cost",
            Shape::EndOperator => "end_operator",
            Shape::BeginRule => "begin_rule",
            Shape::Head => "head",
            Shape::EndRule => "end_rule",
            Shape::Blank => "blank line",
        }
    }
}

/// Why a text is no task file.
#[derive(Debug, Drop, Error)]
pub enum ReadFault {
    /// The first line at which no task file can go on so, counted from 1, and what is wanted there. It is one past
    /// the last line where the text ends too early.
    #[error("line {line} offends")]
    Offence { line: u64, wanted: Shape },
    /// Out of memory.
    #[error("out of memory")]
    Memory,
}
