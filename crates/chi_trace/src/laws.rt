//! Laws of traces. Each function does nothing: its contract is the law, for proofs that call it.

ghost use Rattle.chi_trace.specs.AtPlaces.{GranulesStandAlone, PlacesExplain};
ghost use Rattle.chi_trace.specs.Fields.{FieldsAreTold};
ghost use Rattle.chi_trace.specs.Replies.{FaultyRepliesAreNoAnswers};
ghost use Rattle.chi_trace.specs.Segments.{QuietTimesDivide};
ghost use Rattle.chi_trace.specs.TraceLaws.{CutsAreExplained, ExplanationsAreLegal, GranulesExplain, OrdersOfGranulesExplain, PartsExplain, PartsJoin};

/// A trace that is explained is so up to each time.
pub fn cuts_are_explained()
    ensures { CutsAreExplained }
{}

/// What explains a trace is a legal history of a home.
pub fn explanations_are_legal()
    ensures { ExplanationsAreLegal }
{}

/// A reply with a fault is the answer of its access at no memory, so a trace that has one cannot be explained.
pub fn faulty_replies_are_no_answers()
    ensures { FaultyRepliesAreNoAnswers }
{}

/// An operation tells the opcode and the size of its request, where a home accepted that.
pub fn fields_are_told()
    ensures { FieldsAreTold }
{}

/// A trace can be explained exactly where each granule's operations can.
pub fn granules_explain()
    ensures { GranulesExplain }
{}

/// A granule's operations can be explained exactly where they can by themselves, told in any order.
pub fn granules_stand_alone()
    ensures { GranulesStandAlone }
{}

/// Orders of the granules' operations make one of the whole trace.
pub fn orders_of_granules_explain()
    ensures { OrdersOfGranulesExplain }
{}

/// What an order of the whole trace has of a granule explains it.
pub fn parts_explain()
    ensures { PartsExplain }
{}

/// An order of the whole trace explains it, where what it has of each granule explains the granule.
pub fn parts_join()
    ensures { PartsJoin }
{}

/// A granule's operations may be told by themselves, in any order.
pub fn places_explain()
    ensures { PlacesExplain }
{}

/// Across a time at which no operation of a granule was open, the earlier ones and the later ones can be judged by
/// themselves.
pub fn quiet_times_divide()
    ensures { QuietTimesDivide }
{}
