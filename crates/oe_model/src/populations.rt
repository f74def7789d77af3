//! Laws of the population that a database begins with: there is one and only one of each scale, and
//! it meets what `Core::open` asks.
ghost use Rattle.oe_model.specs.PopulationRanges.{Population_exists, Population_is_in_range};
ghost use Rattle.oe_model.specs.PopulationTest.{Population_is_tested};
ghost use Rattle.oe_model.specs.PopulationLaws.{Population_is_one, Worked_population};

/// Tables with the rows of the formulas are tables to begin from.
pub fn population_is_one()
    ensures { Population_is_one }
{}

/// The formulas at values worked out by hand.
pub fn worked_population()
    ensures { Worked_population }
{}

/// Whether tables are such as to begin from can be computed.
pub fn population_is_tested()
    ensures { Population_is_tested }
{}

/// Each key and row of the formulas lies in the ranges of its columns.
pub fn population_is_in_range()
    ensures { Population_is_in_range }
{}

/// There are tables with the rows of the formulas.
pub fn population_exists()
    ensures { Population_exists }
{}
