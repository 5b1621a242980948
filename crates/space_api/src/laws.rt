//! Laws of what a space tells.

ghost use Rattle.space_api.specs.Costs.{CostsAreListed};

/// The costs that a space lists are the operators' costs, each once and rising, and no other list of numbers is so.
pub fn costs_are_listed()
    ensures { CostsAreListed }
{}
