//! Laws of sections on a shared map. Each function's contract is one law or two, and it does nothing else.
ghost use Rattle.table_sections.specs.Sections.{SectionsAreAnswered, SectionsAreBeside, SectionsAreGuarded};

/// A section does to the map only what other sections may rely on, so it is guarded: where all domains make sections alone, or
/// what else is guarded, the map is shared.
pub fn sections_are_guarded()
    ensures { SectionsAreGuarded }
{}

/// On a map that others respect each section is answered line by line between two fronts of the one history: a lookup answers
/// what was bound at a front between them, and a put or a take that is done has its entry there. Where the map is shared, others
/// respect it.
pub fn sections_are_answered()
    ensures beside { SectionsAreBeside }
    ensures shared { SectionsAreAnswered }
{}
