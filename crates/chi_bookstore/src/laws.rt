//! Laws of the lock-free home, as functions whose contracts they are.

ghost use Rattle.chi_rule.specs.Events.{ExchangeAdds, ExchangeIsPossible, IsOneHistory, JoinLeaves, LookIsPossible, LookLeaves, ReadLeaves, SplitLeaves};

/// What a store's words and seats show is one history: no other is the longest that a seat has seen.
pub fn one_history()
    ensures { IsOneHistory }
{}

/// An entry comes into the history by one exchange that wins, of a number that the stepping seat holds. Each
/// other step leaves the history: the load of a try, the loads of a snapshot and after a join, an exchange that
/// loses, a split and a join. This is so of every view that the step may leave, and of every history at which
/// the rule then stands.
pub fn entries_by_winning_exchanges()
    ensures exchange { ExchangeAdds }
    ensures look { LookLeaves }
    ensures read { ReadLeaves }
    ensures split { SplitLeaves }
    ensures join { JoinLeaves }
{}

/// The steps of a try are possible: wherever the rule stands, the load and the exchange may leave a view that
/// has seen the whole history, and the rule stands after them.
pub fn tries_are_possible()
    ensures look { LookIsPossible }
    ensures exchange { ExchangeIsPossible }
{}
