//! Laws of the locked home, as functions whose contracts they are.

ghost use Rattle.chi_rule.specs.Events.{IsOneHistory, JoinLeaves, MoveLeaves, ReadLeaves, ReplaceAdds, ReplaceIsPossible, SplitLeaves};

/// What a store's line and seats show is one history: no other is the longest that a seat has seen.
pub fn one_history()
    ensures { IsOneHistory }
{}

/// An entry comes into the history by one exchange of the line that wins, of a number that the stepping seat
/// holds. Each other step leaves the history: a look at the line, before a try, for a snapshot or after a join,
/// an exchange that loses, a split, a join, and a pass that goes whole into another. This is so of every view
/// that the step may leave, and of every history at which the rule then stands.
pub fn entries_by_winning_exchanges()
    ensures exchange { ReplaceAdds }
    ensures read { ReadLeaves }
    ensures split { SplitLeaves }
    ensures whole { MoveLeaves }
    ensures join { JoinLeaves }
{}

/// Wherever the rule stands, an exchange of the line that was found is possible: it may leave a view that has
/// seen the whole history, and the rule stands after it.
pub fn exchange_is_possible()
    ensures { ReplaceIsPossible }
{}
