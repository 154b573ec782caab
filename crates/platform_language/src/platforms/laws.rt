//! Laws of the table of platforms.
ghost use Rattle.platform_language.specs.Platforms.Table.{targets};
ghost use Rattle.platform_language.specs.Platforms.Targets.{TriplesRise, RowsAreFound};

/// The triples of the table rise by their bytes, so that no two are the same.
pub fn law_triples()
    ensures { TriplesRise targets }
{}

/// Each row of the table is what its triple finds.
pub fn law_rows()
    ensures { RowsAreFound targets }
{}
