ghost use Rattle.edi_syntax.specs.{Laws.{MessagesStand, ReadsTheGrammar}, Written.{WritesSegments, ReadsBack}, Cuts.{FirstIsOne, CutsGoByTheGrammar}};
ghost use Rattle.edi_syntax.specs.{Positions.{RefusedWhereNothingGoesOn, ClosedWhereATrailerEnds}, Streams.{CutsTheStream, CutsAreOne}};

/// If there is no `SyntaxFault::MessageFrame`, the header is followed by messages from UNH to UNT, and a UNZ.
pub fn messages_stand()
    ensures { MessagesStand }
{}

/// No text of the grammar is refused as `SyntaxFault::Service` or `SyntaxFault::Segment`, and every other is.
pub fn reads_the_grammar()
    ensures { ReadsTheGrammar }
{}

/// The calls of a writer write the texts of segments.
pub fn writes_segments()
    ensures { WritesSegments }
{}

/// The text of segments reads back as the same segments.
pub fn reads_back()
    ensures { ReadsBack }
{}

/// Bytes are refused exactly if no continuation of them is a text of segments.
pub fn refused_where_nothing_goes_on()
    ensures { RefusedWhereNothingGoesOn }
{}

/// Bytes close exactly if they end with the terminator of a last segment.
pub fn closed_where_a_trailer_ends()
    ensures { ClosedWhereATrailerEnds }
{}

/// A stream has one first interchange, and not a fault besides.
pub fn first_is_one()
    ensures { FirstIsOne }
{}

/// The interchanges that a cutter gives for pieces are those of the stream that the pieces make.
pub fn cuts_the_stream()
    ensures { CutsTheStream }
{}

/// A stream has one list of interchanges and one rest.
pub fn cuts_are_one()
    ensures { CutsAreOne }
{}

/// Where a stream can't go on, and where an interchange ends, in the words of the grammar.
pub fn cuts_go_by_the_grammar()
    ensures { CutsGoByTheGrammar }
{}
