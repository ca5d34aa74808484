ghost use Rattle.edi_messages.specs.{Contrl.{ContrlsAreCounted, ContrlsAreWithoutFault}, Forms.OrdersAreFormed};
ghost use Rattle.edi_messages.specs.Laws.{FaultlessAreRead, LinesAnswerTheirFirstFault, ReplacingIsOfAList};

/// A message to which no fault applies is read for a purpose: as a list of lines of one kind of order.
pub fn faultless_are_read()
    ensures { FaultlessAreRead }
{}

/// What a line is refused for is the first of its faults in their order, and a line without fault is an order.
pub fn lines_answer_their_first_fault()
    ensures { LinesAnswerTheirFirstFault }
{}

/// A message that replaces is of a list, and names the call whose list it is.
pub fn replacing_is_of_a_list()
    ensures { ReplacingIsOfAList }
{}

/// The segments of a CONTRL have none of faults 9 to 15: they are one message, and their counts and references are
/// right.
pub fn contrls_are_counted()
    ensures { ContrlsAreCounted }
{}

/// What a message orders has its form: the container's number, its size-type, the moment, the call, the booking and the
/// port.
pub fn orders_are_formed()
    ensures { OrdersAreFormed }
{}

/// The text of a written CONTRL is read as its segments and has none of faults 1 to 15, if it is no longer than a text
/// may be.
pub fn contrls_are_without_fault()
    ensures { ContrlsAreWithoutFault }
{}
