//! Laws of the levels of definitions: they reduce a level to the counts of its keys and one order.
ghost use Rattle.dia_breaking_levels.specs.Laws.{DefinitionsAreSound, PlacedIsInPlace, PlacedOrBreach};
ghost use Rattle.dia_breaking_levels.specs.Laws.{BreachIsUnplaced, PlanIsPlaced, PlanIsLeast, OnceIsLeast};
ghost use Rattle.dia_breaking_levels.specs.Chosen.{EachLineHasALevel, LineLevelsAreOne};
ghost use Rattle.dia_breaking_levels.specs.Laws.{LinesAreOne};
ghost use Rattle.dia_breaking_levels.specs.Showing.{LinesAreShown, LinesHaveRoom};

/// The rules of a dictionary's definitions meet the conditions of the other laws.
pub fn definitions_are_sound()
    ensures { DefinitionsAreSound }
{}

/// AVPs are as rules say just where they come as often as these say, and in the order of the fixed ones.
pub fn placed_is_in_place()
    ensures { PlacedIsInPlace }
{}

/// AVPs that aren't as rules say break them in one of six ways.
pub fn breaches_are_all()
    ensures either { PlacedOrBreach }
    ensures never_both { BreachIsUnplaced }
{}

/// The least counts of rules, with a shortest AVP for the wildcard, are the least level.
pub fn plan_is_least()
    ensures placed { PlanIsPlaced }
    ensures least { PlanIsLeast }
{}

/// The least level in which a key occurs once or more is computed from the rules, and the cheapest AVP by the wildcard.
pub fn once_is_least()
    ensures { OnceIsLeast }
{}

/// The lines of two definitions are unique: their order, their lengths, and which key each reports.
pub fn lines_are_one()
    ensures { LinesAreOne }
{}

/// The level that is written for a line is unique: its AVPs and their order.
pub fn line_levels_are_one()
    ensures one { LineLevelsAreOne }
    ensures some { EachLineHasALevel }
{}

/// The level that is written for a line shows it.
pub fn lines_are_shown()
    ensures { LinesAreShown }
{}

/// Messages have room for each AVP of the level that is written for a line.
pub fn lines_have_room()
    ensures { LinesHaveRoom }
{}
