//! Laws of printing and reading, each the contract of a function that does nothing.
ghost use Rattle.bc_text.specs.Reading.{read, read_types};
ghost use Rattle.bc_text_laws.specs.Laws.{PrintedIsSpelled, PrintedIsRead, PrintedTypesAreSpelled, PrintedTypesAreRead, RefusedHaveABadToken, SomeUnitBegins, NoUnitBegins, SomeTypesBegin, NoTypesBegin, FaultsAreLocal};

/// States that the printed text of a unit spells that unit and is read as it, if it has at most 1,048,576 bytes.
pub fn printed_units_are_read()
    ensures spelled { PrintedIsSpelled }
    ensures read { PrintedIsRead }
{}

/// States that the printed text of declarations spells them and is read as them, if it has at most 1,048,576 bytes.
pub fn printed_types_are_read()
    ensures spelled { PrintedTypesAreSpelled }
    ensures read { PrintedTypesAreRead }
{}

/// States that a refused text that is not too long has a bad token, at the place of its fault. The tokens before it begin some unit, limits
/// and side conditions aside; those up to and including it begin no unit. Each text with the same bytes, up to and including the one after
/// that token, has the same fault, if it is not too long. The byte after a name decides where the name ends.
pub fn refused_units_have_a_bad_token()
    ensures bad { RefusedHaveABadToken read SomeUnitBegins NoUnitBegins }
    ensures local { FaultsAreLocal read }
{}

/// States that a refused text of declarations that is not too long has a bad token, at the place of its fault. The tokens before it begin
/// some declarations, limits and side conditions aside; those up to and including it begin none. Each text with the same bytes, up to and
/// including the one after that token, has the same fault, if it is not too long. The byte after a name decides where the name ends.
pub fn refused_types_have_a_bad_token()
    ensures bad { RefusedHaveABadToken read_types SomeTypesBegin NoTypesBegin }
    ensures local { FaultsAreLocal read_types }
{}
